//! Lists that contracts see as the lists of their items.

ghost use Rattle.std.specs.Prelude.{◌≡◌, ◌∷◌, [], ◌++◌, OnOk, IfErr, IfOk};

use std::alloc::{AllocError, Global};
use std::marker::Model;

/// A list. Contracts see its items in order, but not its capacity.
#[derive(Debug, Drop)]
pub struct Listed<T> {
    items: Vec<T>,
}

impl<T> Model for Listed<T> {
    ghost use Rattle.std.specs.Prelude.{List};

    ghost Value = { List T };

    ghost view = { λ l. l.items.items };
}

impl<T> Listed<T> {
    /// Returns the list of these items, in the memory of `items`. Never allocates.
    pub fn new(items: Vec<T>) -> Listed<T>
        ensures { result ≡ items.items }
    {
        Listed { items }
    }

    /// Adds an item at the end. If memory runs out, nothing changes.
    pub fn push(&mut self, item: T) -> Result<(), AllocError>
    where
        T: Drop,
        ensures pushed { OnOk result (self.new ≡ self.old ++ item ∷ []) }
        ensures kept { IfErr result (λ _. self.new ≡ self.old) }
    {
        self.items.push(item)?;
        Ok(())
    }

    /// Returns the items, in order.
    pub fn as_slice(&self) -> &[T]
        ensures { result.now ≡ self.now }
    {
        &self.items
    }

    /// Returns the items as a vector. They aren't copied.
    pub fn into_vec(self) -> Vec<T>
        ensures { result.items ≡ self }
    {
        self.items
    }

    /// Returns the allocator of the list's memory.
    pub fn allocator(&self) -> Global {
        *self.items.allocator()
    }

    /// Returns a list of copies of `items`, in newly allocated memory; an error if memory runs out.
    pub fn of(alloc: Global, items: &[T]) -> Result<Listed<T>, AllocError>
    where
        T: Copy,
        ensures { IfOk result (λ l. l ≡ items.now) }
    {
        Ok(Listed::new(Vec::from_slice(alloc, items)?))
    }
}

/// A clone is an equal list, in newly allocated memory.
impl<T: Copy> Clone for Listed<T> {
    ghost use Rattle.std.specs.Prelude.{◌≡◌};

    ghost is_clone = { λ l m. m ≡ l };

    fn clone(&self) -> Result<Listed<T>, AllocError> {
        Listed::of(self.allocator(), self.as_slice())
    }
}
