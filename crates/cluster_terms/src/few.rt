ghost use Rattle.std.specs.Prelude.{◌≡◌, ◌<◌, ◌≤◌, ◌==◌, [], ◌∷◌, ◌++◌, length};

use std::marker::Model;

/// Up to `N` items, stored inline. A list takes no memory.
#[derive(Drop)]
pub struct Few<T, const N: usize> {
    items: [T; N],
    count: usize,
}

impl<T, const N: usize> Model for Few<T, N> {
    ghost use Rattle.std.specs.Prelude.{◌≡◌, ◌≤◌, List, length, take};

    ghost Value = { List T };

    ghost view = { λ few. take few.count few.items };

    ghost invariant = { λ few. (few.count ≤ N) × (length few.items ≡ N) };
}

impl<T: Copy, const N: usize> Few<T, N> {
    /// No item. The places without an item hold `blank`.
    pub fn of(blank: T) -> Few<T, N>
        ensures { result ≡ [] }
    {
        Few {
            items: [blank; N],
            count: 0,
        }
    }

    /// The items, in order.
    pub fn as_slice(&self) -> &[T]
        ensures items { result.now ≡ self.now }
        ensures fits { length self.now ≤ N }
    {
        &self.items[..self.count]
    }

    /// The number of items.
    pub fn len(&self) -> usize
        ensures len { result ≡ length self.now }
        ensures fits { length self.now ≤ N }
    {
        self.count
    }

    /// Whether there is no room for another item.
    pub fn is_full(&self) -> bool
        ensures full { result ≡ (length self.now == N) }
        ensures fits { length self.now ≤ N }
    {
        self.count == N
    }

    /// Adds an item at the end. There must be room.
    pub fn push(&mut self, item: T)
        requires { length self.old < N }
        // Promise: a list of up to a fixed number of items is inline: an item is added at its end, all are removed, and
        // nothing takes memory. Guards: scripts, tried.
        ensures { self.new ≡ self.old ++ item ∷ [] }
    {
        let count = self.count;
        self.items[count] = item;
        self.count = count + 1;
    }

    /// Removes all items.
    pub fn clear(&mut self)
        ensures { self.new ≡ [] }
    {
        self.count = 0;
    }
}
