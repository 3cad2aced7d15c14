/// The result of handing an entry or an image to a follower. The number is the follower's epoch after the call.
#[derive(Clone, Copy, Debug, PartialEq, Eq)]
pub enum Took {
    /// It was taken. No entry of the next epoch waits.
    At(u64),
    /// Its epoch is at most the follower's.
    Old(u64),
    /// The same entry waits already.
    Held(u64),
    /// Its epoch is past the next one, and 1,024 entries wait. It wasn't taken.
    Full(u64),
}
