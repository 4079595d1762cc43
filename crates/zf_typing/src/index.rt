//! Variables that are found by buckets of their names.
ghost use Rattle.std.specs.Prelude.{◌≡◌, ◌-◌, ◌^◌, ◌∷◌, ◌++◌, ◌<◌, [], IfSome, OnOk, OnErr, get_or, length, map, take};
ghost use Rattle.zf_typing.specs.Prelude.{found_as};
ghost use Rattle.zf_typing.specs.{AreHeads, IsIndexed, last_named, variable_of};

use crate::spelling::{BUCKETS, bucket_of};
use crate::variable::Variable;
use std::alloc::{AllocError, Global};
use std::marker::Model;
use zf_term::is_same;

/// Variables, each with the way to those before it that have names of its bucket.
#[derive(Drop)]
pub(crate) struct Indexed<'a> {
    chain: Vec<Chained<'a>>,
    /// For each bucket, one more than the place of its last variable; 0 where it has none.
    heads: Vec<usize>,
}

/// A variable in the chain of its bucket.
#[derive(Drop)]
pub(crate) struct Chained<'a> {
    pub(crate) variable: Variable<'a>,
    /// One more than the place of the one before it in its bucket; 0 where there is none.
    previous: usize,
}

impl<'a> Model for Indexed<'a> {
    ghost use Rattle.std.specs.Prelude.{List, map};
    ghost use denote.Signature.{static_lft};
    ghost use Rattle.std.specs.Coded.{codes};
    ghost use Rattle.zf_term.specs.contracts.ztype.ZType as ztype;
    ghost use Rattle.zf_typing.specs.declared.variable.Variable as program;

    ghost Value = { List program.Variable };

    ghost coded = { Prim.hlevel (codes, (ztype.the_row static_lft).coded) };

    ghost view = { λ i. map (λ c. c.variable) i.chain.items };

    ghost use Rattle.zf_typing.specs.Buckets.{IsIndexed};

    ghost invariant = { λ i. IsIndexed i.chain.items i.heads.items };
}

impl<'a> Indexed<'a> {
    pub(crate) fn new(alloc: Global) -> Indexed<'a>
        ensures { result ≡ [] }
    {
        Indexed {
            chain: Vec::new(alloc),
            heads: Vec::new(alloc),
        }
    }

    pub(crate) fn len(&self) -> usize
        ensures is { result ≡ length self.now }
        ensures small { result < 2 ^ 63 }
    {
        self.chain.len()
    }

    pub(crate) fn get(&self, place: usize) -> &Variable<'a>
        requires { place < length self.now }
        ensures { result.now ≡ get_or self.now place result.now }
    {
        &self.chain[place].variable
    }

    pub(crate) fn push(&mut self, variable: Variable<'a>) -> Result<(), AllocError>
        ensures ok { OnOk result (self.new ≡ self.old ++ variable.entry ∷ []) }
        ensures err { OnErr result (self.new ≡ self.old) }
    {
        make_heads(&mut self.heads)?;
        let bucket = bucket_of(variable.name.as_slice());
        let previous = self.heads[bucket];
        self.chain.push(Chained { variable, previous })?;
        self.heads[bucket] = self.chain.len();
        Ok(())
    }

    /// Keeps the first variables.
    pub(crate) fn truncate(&mut self, len: usize)
        ensures { self.new ≡ take len self.old }
    {
        while self.len() > len {
            self.pop();
        }
    }

    fn pop(&mut self)
        requires { 0 < length self.old }
        ensures { self.new ≡ take (length self.old - 1) self.old }
    {
        let Some(last) = self.chain.pop() else {
            unreachable!();
        };
        let bucket = bucket_of(last.variable.name.as_slice());
        self.heads[bucket] = last.previous;
    }

    pub(crate) fn into_chain(self) -> Vec<Chained<'a>>
        ensures { map (λ c. c.variable) result.items ≡ self.entry }
    {
        self.chain
    }

    /// The last variable of the name, with its place.
    pub(crate) fn find<'b>(&'b self, name: &[u8]) -> Option<(usize, &'b Variable<'a>)>
        ensures small { IfSome result (λ p. p.0 < 2 ^ 63) }
        ensures last { found_as (λ v. variable_of v.now) result ≡ last_named (λ v. v.name) name.now (map variable_of self.now) }
    {
        found_along(self.chain.as_slice(), self.heads.as_slice(), name)
    }
}

/// The last variable of the name, with its place: it is looked for along the chain of its bucket.
fn found_along<'a, 'b>(
    chain: &'b [Chained<'a>],
    heads: &[usize],
    name: &[u8],
) -> Option<(usize, &'b Variable<'a>)>
    requires { IsIndexed chain.now heads.now }
    ensures small { IfSome result (λ p. p.0 < 2 ^ 63) }
    ensures last { found_as (λ v. variable_of v.now) result ≡ last_named (λ v. v.name) name.now (map (λ c. variable_of c.variable) chain.now) }
{
    if chain.is_empty() {
        return None;
    }
    let mut ahead = heads[bucket_of(name)];
    while ahead > 0 {
        let place = ahead - 1;
        let chained = &chain[place];
        if is_same(chained.variable.name.as_slice(), name) {
            return Some((place, &chained.variable));
        }
        ahead = chained.previous;
    }
    None
}

/// The buckets, none of which has a variable yet, where they are not there.
fn make_heads(heads: &mut Vec<usize>) -> Result<(), AllocError>
    ensures ok { OnOk result (AreHeads heads.old.items heads.new.items) }
    ensures err { OnErr result (heads.new.items ≡ heads.old.items) }
{
    if heads.is_empty() {
        heads.resize(BUCKETS, 0)?;
    }
    Ok(())
}
