/// Prepared: reads and writes do not see the movement yet.
pub enum Prepared {}

/// Started: writes go by the ring before the movement and by the ring after it. Reads don't see it as done.
pub enum Started {}

/// Half way: reads see the movement as done, and writes still go by both rings.
pub enum Mid {}
