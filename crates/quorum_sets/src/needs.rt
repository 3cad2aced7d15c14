/// How many of the replicas that are read a read needs, and how many of those that are written a write needs.
/// It isn't in the file of `quorum`, as two names of a module can't differ in case alone.
#[derive(Clone, Copy, Debug, PartialEq, Eq)]
pub struct Quorum {
    pub read_need: u32,
    pub write_need: u32,
}
