ghost use Rattle.std.specs.Prelude.{◌≡◌, IfOk};

use std::alloc::{AllocError, Global};
use std::marker::Model;

/// A value on the heap. Contracts see the value.
#[derive(Drop)]
pub struct Boxed<T> {
    cell: Box<T>,
}

impl<T> Model for Boxed<T> {
    ghost Value = { T };

    ghost coded = { T.code };

    ghost view = { λ boxed. boxed.cell.value };
}

impl<T> Boxed<T> {
    ghost use Rattle.std.specs.Borrow.{sem};
    ghost use Rattle.containers.specs.Lends.{lends_value};

    /// The value.
    pub fn get(&self) -> &T
        ensures { result.now ≡ self.now }
    {
        &self.cell
    }

    /// The value for writing.
    pub fn get_mut(&mut self) -> &mut T
        ensures* writes_back { sem 𝓛 (lends_value T.row self.entry result) }
        ensures value { result.now ≡ self.old }
    {
        self.cell.as_mut()
    }
}

impl<T: Drop> Boxed<T> {
    /// A value on the heap.
    ///
    /// # Errors
    ///
    /// There is not enough memory.
    pub fn new(alloc: Global, value: T) -> Result<Boxed<T>, AllocError>
        ensures { IfOk result (λ boxed. boxed ≡ value) }
    {
        let cell = Box::new(alloc, value)?;
        Ok(Boxed { cell })
    }

    /// The value, off the heap.
    pub fn into_inner(self) -> T
        ensures { result ≡ self }
    {
        Box::into_inner(self.cell)
    }
}
