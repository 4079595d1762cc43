//! Lists in an arena.
ghost use Rattle.std.specs.Prelude.{◌≡◌, [], ◌∷◌, ◌++◌, length, IfOk, MatchOption, OnOk, OnErr};

use bumpalo::Bump;
use std::alloc::AllocError;
use std::marker::Model;
use std::mem::ManuallyDrop;

/// A `Vec` in an arena that contracts see as the list of its items.
#[derive(Drop)]
pub struct Items<'a, T> {
    pub items: ManuallyDrop<Vec<T, &'a Bump>>,
}

impl<'a, T> Model for Items<'a, T> {
    ghost use Rattle.std.specs.Prelude.{List};
    ghost use Rattle.std.specs.Coded.{coded_list};
    ghost use Rattle.std.specs.Mem.{manually_drop_value};

    ghost Value = { List T };

    ghost coded = { coded_list T.code };

    ghost view = { λ s. (manually_drop_value s.items).items };
}

impl<'a, T> Items<'a, T> {
    pub fn as_slice(&self) -> &[T]
        ensures { result.now ≡ self.now }
    {
        self.items.as_slice()
    }

    pub fn len(&self) -> usize
        ensures { result ≡ length self.now }
    {
        self.items.len()
    }

    /// Where the list stands.
    pub fn arena(&self) -> &'a Bump {
        *self.items.allocator()
    }

    /// The items, in a `Vec`.
    pub fn into_vec(self) -> Vec<T, &'a Bump>
        ensures { result.items ≡ self.entry }
    {
        ManuallyDrop::into_inner(self.items)
    }
}

impl<'a, T: Drop> Items<'a, T> {
    pub fn new(arena: &'a Bump) -> Items<'a, T>
        ensures { result ≡ [] }
    {
        Items {
            items: ManuallyDrop::new(Vec::new(arena)),
        }
    }

    /// The list of no items, with room for so many.
    pub fn with_room(arena: &'a Bump, room: usize) -> Result<Items<'a, T>, AllocError>
        ensures { IfOk result (λ s. s ≡ []) }
    {
        Ok(Items {
            items: ManuallyDrop::new(Vec::with_capacity(arena, room)?),
        })
    }

    pub fn push(&mut self, item: T) -> Result<(), AllocError>
        ensures ok { OnOk result (self.new ≡ self.old ++ item ∷ []) }
        ensures err { OnErr result (self.new ≡ self.old) }
    {
        // Most lists of a tree have one item: the first gets room for itself alone.
        if self.items.is_empty() {
            self.items.reserve_exact(1)?;
        }
        self.items.push(item)?;
        Ok(())
    }

    /// The list of one item.
    pub fn of(arena: &'a Bump, item: T) -> Result<Items<'a, T>, AllocError>
        ensures { IfOk result (λ s. s ≡ item ∷ []) }
    {
        let mut items = Vec::with_capacity(arena, 1)?;
        items.push_reserved(item);
        Ok(Items {
            items: ManuallyDrop::new(items),
        })
    }

    /// Makes room for so many more items.
    pub fn make_room(&mut self, more: usize) -> Result<(), AllocError>
        ensures { self.new ≡ self.old }
    {
        if self.items.is_empty() {
            self.items.reserve_exact(more)
        } else {
            self.items.reserve(more)
        }
    }

    /// Takes the last item off.
    pub fn pop(&mut self) -> Option<T>
        ensures { MatchOption result ((self.old ≡ []) × (self.new ≡ [])) (λ item. self.old ≡ self.new ++ item ∷ []) }
    {
        self.items.pop()
    }

    /// Takes all items off. The room stays.
    pub fn clear(&mut self)
        ensures { self.new ≡ [] }
    {
        self.items.clear();
    }

    /// Adds the items of the other list.
    pub fn append(&mut self, further: Items<'a, T>) -> Result<(), AllocError>
        ensures ok { OnOk result (self.new ≡ self.old ++ further.entry) }
        ensures err { OnErr result (self.new ≡ self.old) }
    {
        let mut further = further.into_vec();
        self.items.append(&mut further)
    }
}
