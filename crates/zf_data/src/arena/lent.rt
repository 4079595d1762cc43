//! Bytes that are lent.
ghost use Rattle.std.specs.Prelude.{◌≡◌, ◌++◌, ◌↔◌, IsTrue, IfOk};

use bumpalo::Bump;
use bumpalo::collections::into_bump_slice;
use std::alloc::AllocError;
use std::marker::Model;

/// Bytes of a text that lives elsewhere, which contracts see as their list.
#[derive(Drop)]
pub struct Lent<'a> {
    pub bytes: &'a [u8],
}

impl<'a> Model for Lent<'a> {
    ghost use Rattle.std.specs.Prelude.{List, ℕ};

    ghost Value = { List ℕ };

    ghost view = { λ t. t.bytes.now };
}

impl<'a> Lent<'a> {
    pub fn new(bytes: &'a [u8]) -> Lent<'a>
        ensures { result ≡ bytes.entry.now }
    {
        Lent { bytes }
    }

    /// A copy of the bytes, in the arena.
    pub fn of(arena: &'a Bump, bytes: &[u8]) -> Result<Lent<'a>, AllocError>
        ensures { IfOk result (λ t. t ≡ bytes.now) }
    {
        let copied = arena.try_alloc_slice_copy(bytes)?;
        Ok(Lent { bytes: copied })
    }

    /// The bytes of both, one after the other, in the arena.
    pub fn joined(arena: &'a Bump, first: &[u8], second: &[u8]) -> Result<Lent<'a>, AllocError>
        ensures { IfOk result (λ t. t ≡ first.now ++ second.now) }
    {
        let mut both = Vec::with_capacity(arena, first.len() + second.len())?;
        both.extend_from_slice(first)?;
        both.extend_from_slice(second)?;
        Ok(Lent {
            bytes: into_bump_slice(both),
        })
    }

    /// The same bytes, of which nothing is copied.
    pub fn share(&self) -> Lent<'a>
        ensures { result ≡ self.now }
    {
        Lent { bytes: self.bytes }
    }

    pub fn as_slice(&self) -> &'a [u8]
        ensures { result.now ≡ self.now }
    {
        self.bytes
    }

    /// Whether both have the same bytes.
    pub fn same(&self, other: &Lent<'_>) -> bool
        ensures { IsTrue result ↔ (self.now ≡ other.now) }
    {
        self.bytes == other.bytes
    }
}
