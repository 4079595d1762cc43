//! What a text defines.
ghost use Rattle.std.specs.Prelude.{◌≡◌, ◌++◌, ◌^◌, ◌<◌, ◌↔◌, ℕ, [], ◌∷◌, None, Some, IsTrue, IfOk, MatchOption, OnOk, OnErr, length, slice_get, take};
ghost use Rattle.zf_term.specs.Definitions as spec;
ghost use Rattle.zf_term.specs.{definition_of, first_named, globals_of, schema_of};

use crate::extent::Extent;
use crate::measured::Measured;
use crate::resolved::Resolved;
use crate::schema::Flat;
use crate::ztype::ZType;
use indexmap::IndexMap;
use std::alloc::{AllocError, Global};
use zf_data::arena::{Items, Lent};

/// What a global name is defined as. The number of a given set or free type is its place among them.
#[derive(Drop)]
pub enum Entry<'a> {
    Given(usize),
    /// A free type: its number, and its constructors.
    Free(usize, Items<'a, Lent<'a>>),
    /// A constructor: the number and the name of its free type, and its place in it.
    Constructor(usize, Lent<'a>, usize),
    /// An abbreviation: its type, its term, and the extent of that.
    Abbrev(ZType<'a>, Resolved<'a>, Extent),
    Schema(Measured<'a>),
}

/// The names that a text defines, in order.
#[derive(Drop)]
pub struct Globals<'a> {
    pub entries: IndexMap<Vec<u8>, Entry<'a>>,
}

impl<'a> Globals<'a> {
    /// No names, with room for so many.
    pub fn with_room(alloc: Global, room: usize) -> Result<Globals<'a>, AllocError>
        ensures { IfOk result (λ g. globals_of g ≡ []) }
    {
        Ok(Globals {
            entries: IndexMap::with_capacity(alloc, room)?,
        })
    }

    /// What the names are kept by.
    pub fn allocator(&self) -> Global {
        *self.entries.allocator()
    }

    /// How many names there are.
    pub fn len(&self) -> usize
        ensures len { result ≡ length (globals_of self.now) }
        ensures small { result < 2 ^ 63 }
    {
        self.entries.len()
    }

    /// What the name is defined as.
    pub fn entry(&self, name: &str) -> Option<&Entry<'a>>
        ensures { MatchOption result (first_named (λ d. d.name) name.now (globals_of self.now) ≡ None) (λ e. (i : ℕ) × (first_named (λ d. d.name) name.now (globals_of self.now) ≡ Some (i, record { name = name.now; definition = definition_of e.now }))) }
    {
        self.entries.get(name.as_bytes())
    }

    /// The schema of this name.
    pub fn schema(&self, name: &str) -> Option<&Flat<'a>>
        ensures { MatchOption result ((i : ℕ) (a : spec.Schema) → first_named (λ d. d.name) name.now (globals_of self.now) ≡ Some (i, record { name = name.now; definition = spec.schema a }) → ⊥) (λ f. (i : ℕ) × (first_named (λ d. d.name) name.now (globals_of self.now) ≡ Some (i, record { name = name.now; definition = spec.schema (schema_of f.now) }))) }
    {
        match self.entry(name)? {
            Entry::Schema(schema) => Some(schema.flat()),
            _ => None,
        }
    }

    /// The name at this place in the order of definition, and what it is defined as.
    pub fn in_order(&self, place: usize) -> Option<(&[u8], &Entry<'a>)>
        ensures { MatchOption result (slice_get (globals_of self.now) place ≡ None) (λ p. slice_get (globals_of self.now) place ≡ Some (record { name = p.0.now; definition = definition_of p.1.now })) }
    {
        let (name, entry) = self.entries.get_index(place)?;
        Some((name.as_slice(), entry))
    }

    /// Whether no global has the name.
    pub fn is_new(&self, name: &[u8]) -> bool
        ensures { IsTrue result ↔ (first_named (λ d. d.name) name.now (globals_of self.now) ≡ None) }
    {
        !self.entries.contains_key(name)
    }

    /// Defines a name that is new.
    pub fn define(&mut self, name: Lent<'a>, entry: Entry<'a>) -> Result<(), AllocError>
        requires { first_named (λ d. d.name) name (globals_of self.old) ≡ None }
        ensures ok { OnOk result (globals_of self.new ≡ globals_of self.old ++ record { name = name.entry; definition = definition_of entry.entry } ∷ []) }
        ensures err { OnErr result (globals_of self.new ≡ globals_of self.old) }
    {
        let key = Vec::from_slice(*self.entries.allocator(), name.as_slice())?;
        self.entries.insert(key, entry)?;
        Ok(())
    }

    /// Keeps the first names.
    pub fn truncate(&mut self, len: usize)
        ensures { globals_of self.new ≡ take len (globals_of self.old) }
    {
        self.entries.truncate(len);
    }
}
