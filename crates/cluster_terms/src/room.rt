ghost use Rattle.std.specs.Prelude.{◌≡◌, ◌<◌, ◌≤◌, IfOk, vec_capacity, vec_len};

use crate::memory::Memory;
use std::alloc::Global;
use std::marker::Model;
use std::mem::swap;

/// Memory for a list that grows. Contracts see it as the number of items that it has room for.
#[derive(Debug, Drop)]
pub struct Room<T> {
    items: Vec<T>,
}

impl<T> Model for Room<T> {
    ghost use Rattle.std.specs.Prelude.{◌≡◌, ℕ, vec_capacity, vec_len};

    ghost Value = { ℕ };

    ghost view = { λ room. vec_capacity room.items };

    ghost invariant = { λ room. vec_len room.items ≡ 0 };
}

/// Moves the items into `room`, which is empty and has room for one more, and swaps the two vectors.
fn move_over<T>(items: &mut Vec<T>, room: &mut Vec<T>)
    requires empty { vec_len room.old ≡ 0 }
    requires room { vec_len items.old < vec_capacity room.old }
    ensures items { items.new.items ≡ items.old.items }
    ensures spare { vec_len items.new < vec_capacity items.new }
    ensures empty { vec_len room.new ≡ 0 }
{
    match room.append(items) {
        Ok(()) => {}
        Err(_) => unreachable!(),
    }
    swap(items, room);
}

impl<T> Room<T> {
    /// Room for at least `count` items.
    pub fn for_items(alloc: Global, count: usize) -> Result<Room<T>, Memory>
        ensures { IfOk result (λ room. count ≤ room) }
    {
        let items = Vec::with_capacity(alloc, count)?;
        Ok(Room { items })
    }

    /// Gives a vector room for one more item. If the vector has no memory to spare, its items move into the room.
    pub(crate) fn give(self, items: &mut Vec<T>)
        requires { vec_len items.old < self }
        ensures items { items.new.items ≡ items.old.items }
        ensures spare { vec_len items.new < vec_capacity items.new }
    {
        let Room { items: mut room } = self;
        if items.capacity() == items.len() {
            move_over(items, &mut room);
        }
        room.destroy_empty();
    }
}
