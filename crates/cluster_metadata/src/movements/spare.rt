ghost use Rattle.std.specs.Prelude.{◌≡◌, ◌≤◌, IfOk, vec_capacity, vec_len};

use crate::movements::running::Running;
use cluster_terms::{Memory, Room};
use std::alloc::Global;
use token_ring::LockRow;

/// Memory for a movement that begins: for the values of the movements, and for the table of locks.
pub struct Spare {
    pub room: Vec<Running>,
    pub lock: Room<LockRow>,
}

impl Spare {
    /// Memory for this many movements.
    pub fn for_movements(alloc: Global, count: usize) -> Result<Spare, Memory>
        ensures empty { IfOk result (λ spare. vec_len spare.room ≡ 0) }
        ensures room { IfOk result (λ spare. count ≤ vec_capacity spare.room) }
        ensures lock { IfOk result (λ spare. count ≤ spare.lock) }
    {
        let lock = Room::for_items(alloc, count)?;
        let room = Vec::with_capacity(alloc, count)?;
        Ok(Spare { room, lock })
    }

    /// Gives the memory back.
    pub fn destroy(self)
        requires { vec_len self.room ≡ 0 }
    {
        let Spare { room, lock: _ } = self;
        room.destroy_empty();
    }
}
