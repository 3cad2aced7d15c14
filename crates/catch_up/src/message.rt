use cluster_terms::SmallList;
use transformations::{Entry, Image};

/// A list of entries of a log.
pub type EntryList = SmallList<Entry>;

/// A reply to a follower that asks for the entries of a log after an epoch: the first of these entries, or an image of
/// a later epoch and the first entries after it. It has copies of the entries, since it is kept while the log goes on.
#[derive(Debug, Drop)]
pub struct Reply {
    /// The epoch that the follower asked from.
    pub since: u64,
    /// The image of a later epoch, if there is one.
    pub image: Option<Image>,
    /// The entries after `since`, or after the epoch of the image. No epoch is left out between them.
    pub entries: EntryList,
}
