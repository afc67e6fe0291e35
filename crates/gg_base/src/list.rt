// Lists that are fields, which contracts see as the lists themselves.
ghost use Rattle.std.specs.Prelude.{◌≡◌, IfOk};

use std::alloc::{AllocError, Global};
use std::marker::Model;

/// A vector whose memory contracts don't see: its value is the list of its elements.
#[derive(Drop)]
pub struct ListOf<T> {
    held: Vec<T>,
}

impl<T> Model for ListOf<T> {
    ghost use Rattle.std.specs.Prelude.{List};

    ghost Value = { List T };

    ghost view = { λ l. l.held.items };
}

impl<T> ListOf<T> {
    /// The list, as the vector has it.
    pub fn from_vec(items: Vec<T>) -> Self
        ensures { result ≡ items.items }
    {
        ListOf { held: items }
    }

    /// The list's elements, in order.
    pub fn as_slice(&self) -> &[T]
        ensures { result.now ≡ self.now }
    {
        &self.held
    }

    /// The list's vector, given back without taking memory.
    pub fn into_vec(self) -> Vec<T>
        ensures { result.items ≡ self }
    {
        self.held
    }
}

impl<T: Copy> ListOf<T> {
    /// A copy of these elements.
    pub fn copy_of(alloc: Global, items: &[T]) -> Result<Self, AllocError>
        ensures { IfOk result (λ l. l ≡ items.now) }
    {
        Ok(ListOf::from_vec(Vec::from_slice(alloc, items)?))
    }
}
