/// How a step or a cancel of a movement changes the placements of a token, by a delta of the movement.
#[derive(Clone, Copy, Debug)]
pub enum Turn {
    /// Reads and writes stay.
    Keep,
    /// The reads lose the lost nodes and gain the gained nodes.
    Reads,
    /// The writes lose the lost nodes and gain the gained nodes.
    Writes,
    /// The reads lose the gained nodes and gain the lost nodes.
    ReadsBack,
    /// The writes lose the gained nodes and gain the lost nodes.
    WritesBack,
}
