//! Values that last as long as the arena they stand in.
ghost use Rattle.std.specs.Prelude.{◌≡◌, IfOk};

use bumpalo::Bump;
use std::alloc::AllocError;
use std::marker::Model;

/// A value in an arena, with any number of owners, that contracts see as the value.
#[derive(Drop)]
pub struct Lasting<'a, T> {
    pub inner: &'a T,
}

impl<'a, T> Model for Lasting<'a, T> {
    ghost Value = { T };

    ghost coded = { T.code };

    ghost view = { λ l. l.inner.now };
}

impl<'a, T> Lasting<'a, T> {
    pub fn get(&self) -> &'a T
        ensures { result.now ≡ self.now }
    {
        self.inner
    }

    /// One more owner of the value, which is not copied.
    pub fn share(&self) -> Lasting<'a, T>
        ensures { result ≡ self.now }
    {
        Lasting { inner: self.inner }
    }
}

impl<'a, T: Drop> Lasting<'a, T> {
    pub fn new(arena: &'a Bump, value: T) -> Result<Lasting<'a, T>, AllocError>
        ensures { IfOk result (λ l. l ≡ value) }
    {
        let inner = arena.try_alloc(value)?;
        Ok(Lasting { inner })
    }
}
