ghost use Rattle.std.specs.Prelude.{◌≡◌, ◌<◌, ◌≤◌, List, [], ◌∷◌, ◌++◌, length, slice_set, IfOk, MatchResult};
ghost use Rattle.std.specs.Fn.{CalledAt};
ghost use Rattle.std.specs.List.{insert};
ghost use Rattle.std.specs.List.Retain.{IsFiltered};

use crate::memory::Memory;
use crate::room::Room;
use crate::token::{Pair, Token};
use std::alloc::Global;
use std::marker::Model;

/// A value that can be copied if there is enough memory. This isn't `Clone`, since a copy may run out of memory.
pub trait TryCopy {
    /// An equal value.
    fn copy(&self) -> Result<Self, Memory>
        // Promise: a copy equals the value. Guards: calls/terms.rt, calls/copies.rt, tried.
        ensures { IfOk result (λ copied. copied ≡ self.now) };
}

impl TryCopy for u8 {
    fn copy(&self) -> Result<u8, Memory> {
        Ok(*self)
    }
}

impl TryCopy for u64 {
    fn copy(&self) -> Result<u64, Memory> {
        Ok(*self)
    }
}

/// A list that grows at its end. It is the one list type, with names for its uses, such as `TokenList`.
#[derive(Debug, Drop)]
pub struct SmallList<T> {
    items: Vec<T>,
}

impl<T> Model for SmallList<T> {
    ghost Value = { List T };

    ghost view = { λ list. list.items.items };
}

/// A list of tokens.
pub type TokenList = SmallList<Token>;

/// A list of pairs.
pub type PairList = SmallList<Pair>;

/// A list of bytes.
pub type ByteText = SmallList<u8>;

impl<T> SmallList<T> {
    /// The empty list.
    pub fn empty(alloc: Global) -> Self
        ensures { result ≡ [] }
    {
        SmallList {
            items: Vec::new(alloc),
        }
    }

    /// The empty list, with room for this many items.
    pub fn with_room(alloc: Global, count: usize) -> Result<Self, Memory>
        ensures { IfOk result (λ list. list ≡ []) }
    {
        let items = Vec::with_capacity(alloc, count)?;
        Ok(SmallList { items })
    }

    /// The list of a vector's items. Takes no memory and copies nothing.
    pub fn from_vec(items: Vec<T>) -> Self
        // Promise: the items of a vector are a list, and those of a list a vector; a list with room is empty. Guards:
        // scripts.
        ensures { result ≡ items.items }
    {
        SmallList { items }
    }

    /// The list's items as a vector. Takes no memory and copies nothing.
    pub fn into_vec(self) -> Vec<T>
        ensures { result.items ≡ self }
    {
        self.items
    }

    /// Adds an item at the end. If memory runs out, returns the item and leaves the list unchanged.
    pub fn push(&mut self, item: T) -> Result<(), (T, Memory)>
        ensures { MatchResult result (λ _. self.new ≡ self.old ++ item ∷ [])
            (λ e. (self.new ≡ self.old) × (e.0 ≡ item)) }
    {
        match self.items.push(item) {
            Ok(()) => Ok(()),
            Err(failed) => Err((failed.value, Memory)),
        }
    }

    /// Inserts an item at position `at`, which is at most the length, and moves each later item. If memory runs out,
    /// returns the item and leaves the list unchanged.
    pub fn insert(&mut self, at: usize, item: T) -> Result<(), (T, Memory)>
        requires { at ≤ length self.old }
        // Promise: an item is added at its place; if memory runs out, the list is as before. Guards: tried.
        ensures { MatchResult result (λ _. self.new ≡ insert self.old at item)
            (λ e. (self.new ≡ self.old) × (e.0 ≡ item)) }
    {
        match self.items.insert(at, item) {
            Ok(()) => Ok(()),
            Err(failed) => Err((failed.value, Memory)),
        }
    }

    /// Adds an item at the end. If the list has no memory to spare, its items move into the room. Takes no memory.
    pub fn push_in(&mut self, item: T, room: Room<T>)
        requires { length self.old < room }
        ensures { self.new ≡ self.old ++ item ∷ [] }
    {
        room.give(&mut self.items);
        match self.items.push(item) {
            Ok(()) => {}
            Err(_) => unreachable!(),
        }
    }

    /// Inserts an item at position `at`, which is at most the length, and moves each later item. If the list has no
    /// memory to spare, its items move into the room. Takes no memory.
    pub fn insert_in(&mut self, at: usize, item: T, room: Room<T>)
        requires place { at ≤ length self.old }
        requires room { length self.old < room }
        // Promise: with memory made beforehand, for more items than there are, an item is added at its place, and no
        // memory is taken. Guards: scripts.
        ensures { self.new ≡ insert self.old at item }
    {
        room.give(&mut self.items);
        match self.items.insert(at, item) {
            Ok(()) => {}
            Err(_) => unreachable!(),
        }
    }

    /// The items in order.
    pub fn as_slice(&self) -> &[T]
        ensures { result.now ≡ self.now }
    {
        self.items.as_slice()
    }
}

impl<T: Drop> SmallList<T> {
    /// Replaces the item at position `at`, which is below the length.
    pub fn replace(&mut self, at: usize, item: T)
        requires { at < length self.old }
        ensures { self.new ≡ slice_set self.old at item }
    {
        self.items[at] = item;
    }

    /// Keeps the items that a test accepts, in their order. Takes no memory. The cost is one pass over the items.
    pub fn retain<F: FnMut(&T) -> bool>(&mut self, keep: F)
        requires { F.IsAlwaysCallable keep }
        // Promise: a list keeps the items that a test accepts, in their order. Guards: tried.
        ensures { IsFiltered (CalledAt F.FnMut) keep self.old self.new }
    {
        self.items.retain(keep);
    }
}

impl<T: Copy> SmallList<T> {
    /// An equal list with room for `room` more items. The cost is a copy of the items, all at once.
    pub fn copy_with_room(&self, room: usize) -> Result<Self, Memory>
        // Promise: a copy with room for more items equals the list. Guards: scripts.
        ensures { IfOk result (λ copied. copied ≡ self.now) }
    {
        let count = self.items.len().saturating_add(room);
        let mut items = Vec::with_capacity(*self.items.allocator(), count)?;
        items.extend_from_slice(&self.items)?;
        Ok(SmallList { items })
    }

    /// Adds copies of these items at the end. If memory runs out, leaves the list unchanged. The cost is one pass over
    /// the new items, and a move of the others if the list has no memory to spare.
    pub fn extend(&mut self, items: &[T]) -> Result<(), Memory>
        ensures { MatchResult result (λ _. self.new ≡ self.old ++ items.now) (λ _. self.new ≡ self.old) }
    {
        self.items.extend_from_slice(items)?;
        Ok(())
    }
}

impl<T: TryCopy + Drop> SmallList<T> {
    /// An equal list. The cost is a copy of each item.
    pub fn copy(&self) -> Result<Self, Memory>
        ensures { IfOk result (λ copied. copied ≡ self.now) }
    {
        self.copy_for(0)
    }

    /// An equal list with room for `more` items. The cost is a copy of each item.
    pub fn copy_for(&self, more: usize) -> Result<Self, Memory>
        ensures { IfOk result (λ copied. copied ≡ self.now) }
    {
        let count = self.items.len().saturating_add(more);
        let mut items = Vec::with_capacity(*self.items.allocator(), count)?;
        for item in &self.items {
            items.push(item.copy()?)?;
        }
        Ok(SmallList { items })
    }
}
