//! Facts about the definitions of lines.

ghost use Rattle.std.specs.Prelude.{◌≡◌, ◌≤◌, ℕ, List, length, IsTrue, Ok};
ghost use Rattle.cluster_terms.specs.Name.{is_name};
ghost use Rattle.transformations.specs.Valid.{IsSound};
ghost use Rattle.transformations.specs.declared.entry.Entry.{Entry};
ghost use Rattle.transformations.specs.declared.image.Image.{Image};
ghost use Rattle.wire_json.specs.Entries.{IsEntry};
ghost use Rattle.wire_json.specs.Header.{header_text};
ghost use Rattle.wire_json.specs.LineImages.{FitsLine};
ghost use Rattle.wire_json.specs.Reading.{most_bytes, reading};
ghost use Rattle.wire_json.specs.SnapshotTexts.{image_text};
ghost use Rattle.wire_json.specs.EntryTexts.{entry_line, entry_text};
ghost use Rattle.wire_json.specs.declared.line.Line.TheVariants as line;

/// Reading the text of an entry gives the entry back, for each entry that a log may hold: its epoch is from 1 to
/// 65,536, and the tokens of its command, if it lists any, are 1 to 256 and ascend.
#[tactic(auto, using(crate::proofs::entries::EntriesReadBack::entry_reads_back))]
pub fn entries_read_back()
    // Promise: the text of each entry that a log may hold is read as this entry. Guards: law.
    ensures { (entry : Entry) → IsEntry entry → reading (entry_text entry) ≡ Ok (line.Entry entry) }
{}

/// The line of an entry that a log may hold has at most 6,000 bytes, with its line feed. So the lines of a log, which
/// has at most 65,536 entries, have at most 393,216,000 bytes.
#[tactic(auto, using(crate::proofs::entries::EntrySizes::line_fits))]
pub fn entry_lines_fit()
    // Promise: the line of each entry that a log may hold has at most 6,000 bytes. Guards: law.
    ensures { (entry : Entry) → IsEntry entry → length (entry_line entry) ≤ 6000 }
{}

/// Reading the text of a header gives the header back, for each name that a cluster may have.
#[tactic(auto, using(crate::proofs::headers::HeadersReadBack::header_reads_back))]
pub fn headers_read_back()
    // Promise: the text of the header of each cluster is read as this header. Guards: law.
    ensures { (cluster : List ℕ) → IsTrue (is_name cluster) → reading (header_text cluster) ≡ Ok (line.Header cluster) }
{}

/// Reading the text of an image gives the image back, if its values fit a line and its text isn't longer than a line
/// may be. The image needn't be valid.
#[tactic(auto, using(crate::proofs::images::ImagesReadBack::image_reads_back))]
pub fn images_read_back()
    // Promise: an image's text is read as this image, valid or not, if its values fit a line and its text isn't longer
    // than a line may be. Guards: law.
    ensures { (image : Image) → FitsLine image → length (image_text image) ≤ most_bytes
        → reading (image_text image) ≡ Ok (line.Snapshot image) }
{}

/// The text of a sound image isn't longer than a line may be, if its values fit a line: so reading it gives the image
/// back.
#[tactic(auto, using(crate::proofs::images::ImageSizes::sound_fits))]
pub fn sound_images_fit()
    // Promise: the text of a sound image whose values fit a line isn't longer than a line may be. Guards: law.
    ensures { (image : Image) → FitsLine image → IsSound image → length (image_text image) ≤ most_bytes }
{}
