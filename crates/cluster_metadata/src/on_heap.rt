ghost use Rattle.std.specs.Prelude.{◌≡◌, IfOk};

use cluster_terms::Memory;
use std::alloc::Global;
use std::marker::Model;

/// A value on the heap, so that what contains it is small to move. Contracts see the value itself.
#[derive(Drop)]
pub struct OnHeap<T> {
    item: Box<T>,
}

impl<T> Model for OnHeap<T> {
    ghost Value = { T };

    ghost view = { λ on_heap. on_heap.item.value };
}

impl<T: Drop> OnHeap<T> {
    /// Moves a value to the heap. If memory runs out, the value is dropped.
    pub fn new(alloc: Global, item: T) -> Result<OnHeap<T>, Memory>
        ensures { IfOk result (λ on_heap. on_heap ≡ item) }
    {
        let item = Box::new(alloc, item)?;
        Ok(OnHeap { item })
    }

    /// Moves another value to the same memory, and drops the one before.
    pub fn put(&mut self, item: T)
        ensures { self.new ≡ item }
    {
        let _before = Box::replace(&mut self.item, item);
    }
}

impl<T> OnHeap<T> {
    /// The value where it is.
    pub fn get(&self) -> &T
        ensures { result.now ≡ self.now }
    {
        &self.item
    }

    /// Moves the value back, and frees its memory.
    pub fn take(self) -> T
        ensures { result ≡ self }
    {
        Box::into_inner(self.item)
    }
}
