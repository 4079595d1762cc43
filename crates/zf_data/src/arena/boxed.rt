//! Boxes in an arena.
ghost use Rattle.std.specs.Prelude.{◌≡◌, IfOk};

use super::Items;
use super::nowhere::Nowhere;
use bumpalo::Bump;
use std::alloc::{AllocError, Allocator};
use std::marker::Model;
use std::mem::ManuallyDrop;

/// A `Box` in an arena that contracts see as the value in it. It has the size of a pointer.
#[derive(Drop)]
pub struct Boxed<'a, T> {
    pub inner: ManuallyDrop<Box<T, Nowhere>>,
    // It has no size, and names the lifetime of the arena. With a `PhantomData` in its place no type is proved that contains itself through the box.
    arena: [&'a Bump; 0],
}

impl<'a, T> Model for Boxed<'a, T> {
    ghost use Rattle.std.specs.Mem.{manually_drop_value};

    ghost Value = { T };

    ghost coded = { T.code };

    ghost view = { λ b. (manually_drop_value b.inner).value };
}

/// The same box without its allocator, which does not get the block back.
fn kept<T: Drop, A: Allocator>(owned: Box<T, A>) -> Box<T, Nowhere>
    ensures { result.value ≡ owned.value }
{
    let at = Box::into_raw(owned);
    unsafe { Box::from_raw(Nowhere, at) }
}

impl<'a, T> Boxed<'a, T> {
    pub fn get(&self) -> &T
        ensures { result.now ≡ self.now }
    {
        &self.inner
    }

    /// The value, moved out of its box.
    pub fn into_inner(self) -> T
        ensures { result ≡ self.entry }
    {
        Box::into_inner(ManuallyDrop::into_inner(self.inner))
    }
}

impl<'a, T> Boxed<'a, Items<'a, T>> {
    /// The items of the list in the box.
    pub fn as_slice(&self) -> &[T]
        ensures { result.now ≡ self.now }
    {
        self.get().as_slice()
    }
}

impl<'a, T: Drop> Boxed<'a, T> {
    pub fn new(arena: &'a Bump, value: T) -> Result<Boxed<'a, T>, AllocError>
        ensures { IfOk result (λ b. b ≡ value) }
    {
        Ok(Boxed {
            inner: ManuallyDrop::new(kept(Box::new(arena, value)?)),
            arena: [],
        })
    }
}
