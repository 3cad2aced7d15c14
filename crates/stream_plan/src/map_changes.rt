use placement_deltas::Delta;

/// What a movement changes in a placement map: the nodes that it adds and takes away at each token, and whether the reads
/// of the map have this change already, as they have at `Mid`.
#[derive(Drop)]
pub struct MapChanges<'a> {
    pub delta: &'a Delta,
    pub is_read: bool,
}
