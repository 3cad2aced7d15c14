/// A side of a change: what it adds or what it takes away.
#[derive(Clone, Copy, Debug)]
pub enum Side {
    /// The nodes gained.
    Gained,
    /// The nodes lost.
    Lost,
}
