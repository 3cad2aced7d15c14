//! The lines of the generated script. Each function adds its line at the end of `out`.

ghost use Rattle.std.specs.Prelude.{◌≡◌, ◌++◌, codes, decimal, OnOk};
ghost use Rattle.generated_scripts.specs.GeneratedLines as spec;

use cluster_terms::{ByteText, Memory, Token};
use script_lang::labelled;

/// Adds `commit ID` and a space.
fn commit_text(id: u64, out: &mut ByteText) -> Result<(), Memory>
    ensures { OnOk result (out.new ≡ out.old ++ (codes "commit " ++ decimal id ++ codes " ")) }
{
    labelled(b"commit ", &id, out)?;
    out.extend(b" ")
}

/// A node to register. Its name is a letter and a number; the datacenters are dc1 and dc2, and racks r1, r2 and so on.
#[derive(Debug, Drop)]
pub struct NewNode<'a> {
    pub letter: &'a [u8],
    pub number: u64,
    pub dc: u64,
    pub rack: u64,
}

/// Adds a commit that registers a node.
pub fn register_line(id: u64, node: &NewNode<'_>, out: &mut ByteText) -> Result<(), Memory>
    ensures { OnOk result (out.new ≡ out.old ++ spec.commit_line id
        (spec.register_words node.now.letter.now node.now.number node.now.dc node.now.rack)) }
{
    commit_text(id, out)?;
    out.extend(b"register ")?;
    labelled(node.letter, &node.number, out)?;
    labelled(b" dc", &node.dc, out)?;
    labelled(b" r", &node.rack, out)
}

/// Adds a commit whose command is a word and a node.
pub fn node_line(id: u64, word: &[u8], node: u64, out: &mut ByteText) -> Result<(), Memory>
    ensures { OnOk result (out.new ≡ out.old ++ spec.commit_line id (spec.on_node word.now node)) }
{
    commit_text(id, out)?;
    out.extend(word)?;
    labelled(b" ", &node, out)
}

/// Adds a commit whose command is a word, a node and a token.
pub fn token_line(
    id: u64,
    word: &[u8],
    node: u64,
    token: Token,
    out: &mut ByteText,
) -> Result<(), Memory>
    ensures { OnOk result (out.new
        ≡ out.old ++ spec.commit_line id (spec.with_token word.now node token)) }
{
    node_line(id, word, node, out)?;
    labelled(b" ", &token, out)
}
