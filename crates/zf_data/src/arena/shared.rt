//! Values with several owners, in an arena.
ghost use Rattle.std.specs.Prelude.{◌≡◌, [], ◌∷◌, ◌++◌, IfOk, IfErr, MatchOption, OnErr};

use super::Items;
use bumpalo::Bump;
use std::alloc::AllocError;
use std::marker::Model;
use std::mem::ManuallyDrop;
use std::rc::Rc;

/// An `Rc` in an arena that contracts see as the value in it.
#[derive(Drop)]
pub struct Shared<'a, T> {
    pub inner: ManuallyDrop<Rc<T, &'a Bump>>,
}

impl<'a, T> Model for Shared<'a, T> {
    ghost use Rattle.std.specs.Mem.{manually_drop_value};

    ghost Value = { T };

    ghost coded = { T.code };

    ghost view = { λ s. (manually_drop_value s.inner).value };
}

impl<'a, T> Shared<'a, T> {
    pub fn get(&self) -> &T
        ensures { result.now ≡ self.now }
    {
        self.inner.as_ref()
    }
}

impl<'a, T: Drop> Shared<'a, T> {
    pub fn new(arena: &'a Bump, value: T) -> Result<Shared<'a, T>, AllocError>
        ensures { IfOk result (λ s. s ≡ value) }
    {
        Ok(Shared {
            inner: ManuallyDrop::new(Rc::new(arena, value)?),
        })
    }

    /// The value, where it has no other owner.
    pub fn into_value(self) -> Result<T, Shared<'a, T>>
        ensures ok { IfOk result (λ value. value ≡ self.entry) }
        ensures err { IfErr result (λ shared. shared ≡ self.entry) }
    {
        match Rc::try_unwrap(ManuallyDrop::into_inner(self.inner)) {
            Ok(value) => Ok(value),
            Err(inner) => Err(Shared {
                inner: ManuallyDrop::new(inner),
            }),
        }
    }

    /// One more owner of the value, which is not copied.
    pub fn share(&self) -> Result<Shared<'a, T>, AllocError>
        ensures { IfOk result (λ s. s ≡ self.now) }
    {
        let owner: &Rc<T, &'a Bump> = &self.inner;
        Ok(Shared {
            inner: ManuallyDrop::new(owner.clone()?),
        })
    }
}

impl<'a, T> Shared<'a, T> {
    /// Whether the value has no other owner.
    pub fn is_lone(&self) -> bool {
        Rc::strong_count(&self.inner) == 1
    }
}

impl<'a, T: Drop> Shared<'a, Items<'a, T>> {
    /// Adds an item, which comes back where the list has another owner.
    pub fn with(self, item: T) -> (Shared<'a, Items<'a, T>>, Result<Option<T>, AllocError>)
        ensures ok { IfOk result.1 (λ back. MatchOption back (result.0 ≡ self.entry ++ item ∷ []) (λ same. (same ≡ item) × (result.0 ≡ self.entry))) }
        ensures err { OnErr result.1 (result.0 ≡ self.entry) }
    {
        let mut owner = ManuallyDrop::into_inner(self.inner);
        let answer = match Rc::get_mut(&mut owner) {
            None => Ok(Some(item)),
            Some(items) => match items.push(item) {
                Ok(()) => Ok(None),
                Err(failed) => Err(failed),
            },
        };
        let inner = ManuallyDrop::new(owner);
        (Shared { inner }, answer)
    }
}
