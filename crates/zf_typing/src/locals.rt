//! The bound variables of a scope, in the order in which they were bound.
ghost use Rattle.std.specs.Prelude.{◌≡◌, ◌∷◌, ◌++◌, ◌<◌, [], OnOk, OnErr, get_or, length, map, take};
ghost use Rattle.zf_typing.specs.Prelude.{found_as};
ghost use Rattle.zf_typing.specs.{last_named, variable_of};

use crate::index::{Chained, Indexed};
use crate::variable::{Variable, last_of};
use std::alloc::{AllocError, Global};
use std::marker::Model;

/// How many variables are looked through one by one; those beyond are indexed.
const FEW: usize = 64;

/// Bound variables. Most scopes have a few, which are found soonest one by one.
#[derive(Drop)]
pub struct Locals<'a> {
    few: Vec<Variable<'a>>,
    many: Indexed<'a>,
}

impl<'a> Model for Locals<'a> {
    ghost use Rattle.std.specs.Prelude.{◌≡◌, ◌++◌, ◌<◌, ◌≤◌, [], List, length};
    ghost use denote.Signature.{static_lft};
    ghost use Rattle.std.specs.Coded.{codes};
    ghost use Rattle.zf_term.specs.contracts.ztype.ZType as ztype;
    ghost use Rattle.zf_typing.specs.declared.variable.Variable as program;

    ghost Value = { List program.Variable };

    ghost coded = { Prim.hlevel (codes, (ztype.the_row static_lft).coded) };

    ghost view = { λ l. l.few.items ++ l.many };

    ghost invariant = { λ l. (length l.few.items ≤ 64) × (length l.few.items < 64 → l.many ≡ []) };
}

impl<'a> Locals<'a> {
    pub fn new(alloc: Global) -> Locals<'a>
        ensures { result ≡ [] }
    {
        Locals {
            few: Vec::new(alloc),
            many: Indexed::new(alloc),
        }
    }

    pub fn allocator(&self) -> Global {
        *self.few.allocator()
    }

    pub fn len(&self) -> usize
        ensures { result ≡ length self.now }
    {
        self.few.len() + self.many.len()
    }

    /// The variable at this place.
    pub fn get(&self, place: usize) -> &Variable<'a>
        requires { place < length self.now }
        ensures { result.now ≡ get_or self.now place result.now }
    {
        let few = self.few.len();
        if place < few {
            return &self.few[place];
        }
        self.many.get(place - few)
    }

    /// The last variable of the name, with its place.
    pub fn find<'b>(&'b self, name: &[u8]) -> Option<(usize, &'b Variable<'a>)>
        ensures { found_as (λ v. variable_of v.now) result ≡ last_named (λ v. v.name) name.now (map variable_of self.now) }
    {
        if let Some((place, variable)) = self.many.find(name) {
            return Some((self.few.len() + place, variable));
        }
        last_of(self.few.as_slice(), name)
    }

    pub fn push(&mut self, variable: Variable<'a>) -> Result<(), AllocError>
        ensures ok { OnOk result (self.new ≡ self.old ++ variable.entry ∷ []) }
        ensures err { OnErr result (self.new ≡ self.old) }
    {
        if self.few.len() < FEW {
            self.few.push(variable)?;
            return Ok(());
        }
        self.many.push(variable)
    }

    /// Keeps the first variables.
    pub fn truncate(&mut self, len: usize)
        ensures { self.new ≡ take len self.old }
    {
        let few = self.few.len();
        self.many.truncate(len.saturating_sub(few));
        self.few.truncate(len);
    }

    /// Adds variables after these.
    pub fn append(&mut self, more: Locals<'a>) -> Result<(), AllocError>
        ensures ok { OnOk result (self.new ≡ self.old ++ more.entry) }
        ensures err { OnErr result (self.new ≡ self.old) }
    {
        let len = self.len();
        let appended = self.push_all(more);
        if appended.is_err() {
            self.truncate(len);
        }
        appended
    }

    fn push_all(&mut self, more: Locals<'a>) -> Result<(), AllocError>
        ensures ok { OnOk result (self.new ≡ self.old ++ more.entry) }
        ensures kept { take (length self.old) self.new ≡ self.old }
    {
        let Locals { few, many } = more;
        self.push_few(few)?;
        self.push_many(many.into_chain())
    }

    fn push_few(&mut self, few: Vec<Variable<'a>>) -> Result<(), AllocError>
        ensures ok { OnOk result (self.new ≡ self.old ++ few.entry.items) }
        ensures kept { take (length self.old) self.new ≡ self.old }
    {
        for variable in few {
            self.push(variable)?;
        }
        Ok(())
    }

    fn push_many(&mut self, many: Vec<Chained<'a>>) -> Result<(), AllocError>
        ensures ok { OnOk result (self.new ≡ self.old ++ map (λ c. c.variable) many.entry.items) }
        ensures kept { take (length self.old) self.new ≡ self.old }
    {
        for chained in many {
            self.push(chained.variable)?;
        }
        Ok(())
    }
}
