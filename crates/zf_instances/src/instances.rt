//! The search for the bindings of a schema that counts no tests.
ghost use Rattle.std.specs.Prelude.{length, IfOk, IfErr};
ghost use Rattle.zf_instances.specs.Prelude.{option_copied, schema_of, IsFinite, AreDueWithin, HasLength, environment_of, RefusesStart};
ghost use Rattle.zf_enum.specs.{Begins, portion, property};
ghost use Rattle.zf_instances.specs.{CanHold, planted_goal};

use crate::hopeless::is_hopeless;
use crate::lifting::{lifted, unfolded};
use crate::planting::{Planting, plant_all};
use bumpalo::Bump;
use std::alloc::{AllocError, Global};
use zf_enum::{Located, Passing, Property, Ranged, Search};
use zf_meaning::{Env, Row};
use zf_ranges::StartFault;
use zf_ranges::component::{held_ranges, ranges};
use zf_term::Flat;
use zf_value::Value;
use zf_walk::{Range, Step};

/// The bindings of a schema that are not False, one after another in ascending order. Rows that hold none are passed over, and no test is counted. Closed parts of the schema's conjuncts are worked out once, at the start.
#[derive(Drop)]
pub struct Instances<'s, 'e, 'g, 'a> {
    search: zf_plan::Search<'s, Value, Property<'e, 'g, 'a>>,
    /// How many names the environment of the schema has.
    names: usize,
}

impl<'s, 'e, 'g, 'a> Instances<'s, 'e, 'g, 'a> {
    /// Stands before the first event of the schema that has the values which are held, by the components' places. Neither they nor the named row need be in the ranges.
    pub fn start(
        alloc: Global,
        arena: &'a Bump,
        flat: &Flat<'a>,
        env: &'e Env<'g, 'a>,
        after: Option<&'s [Value]>,
        held: &[Option<Value>],
    ) -> Result<Instances<'s, 'e, 'g, 'a>, StartFault>
        requires finite { IsFinite (environment_of env.now).numbers (environment_of env.now).globals (schema_of flat.now) }
        requires named { HasLength (option_copied after) (length (schema_of flat.now).comps) }
        requires due { AreDueWithin (property (environment_of env.now) (schema_of flat.now).conjuncts) (length (schema_of flat.now).comps) }
        ensures begins { IfOk result (λ i. Begins (environment_of env.now) (schema_of flat.now) (portion (option_copied after.entry) held.now) (planted_goal i.names i.search) i.search.stage) }
        ensures refused { IfErr result (RefusesStart (environment_of env.now) (schema_of flat.now).comps) }
    {
        let ranges = ranges(alloc, flat.components.as_slice(), held, env)?;
        let unfolded = unfolded(alloc, arena, flat, env)?;
        let planting = plant_all(alloc, arena, &unfolded.terms)?;
        let Planting {
            leaves,
            forest,
            required,
        } = planting;
        let is_hopeless = is_hopeless(&required, &leaves, &ranges, held, unfolded.env)?;
        let property = lifted(alloc, arena, leaves, unfolded.env, is_hopeless)?;
        let search = zf_plan::Search::start(alloc, property, forest, ranges, after)?;
        let names = env.count();
        Ok(Instances { search, names })
    }

    /// Stands before the first event that has these values, of components of which values were held before. What the conjuncts were made into stays, and so do the ranges of the other components.
    pub fn holding(
        self,
        alloc: Global,
        flat: &Flat<'a>,
        env: &Env<'_, 'a>,
        held: &[Option<Value>],
    ) -> Result<Instances<'s, 'e, 'g, 'a>, AllocError>
        requires finite { IsFinite (environment_of env.now).numbers (environment_of env.now).globals (schema_of flat.now) }
        requires again { CanHold (environment_of env.now) (schema_of flat.now) held.now (planted_goal self.names self.search) self.search.stage.ranges }
        ensures { IfOk result (λ i. Begins (environment_of env.now) (schema_of flat.now) (portion None held.now) (planted_goal i.names i.search) i.search.stage) }
    {
        let Instances { search, names } = self;
        let others = held_ranges(alloc, flat.components.as_slice(), held, env)?;
        let search = search.exchange(others)?;
        Ok(Instances { search, names })
    }
}

/// The binding that the last step gave; no values where it gave none.
impl<'s, 'e, 'g, 'a> Row for Instances<'s, 'e, 'g, 'a> {
    ghost use Rattle.std.specs.Prelude.{unwrap_or, []};

    ghost values = { λ i. unwrap_or i.search.stage.last [] };

    fn len(&self) -> usize {
        zf_walk::Row::len(&self.search)
    }

    fn get(&self, place: usize) -> &Value {
        zf_walk::Row::get(&self.search, place)
    }
}

impl<'s, 'e, 'g, 'a> Located for Instances<'s, 'e, 'g, 'a> {
    ghost ranges = { λ i. i.search.stage.ranges };

    fn place(&self, i: usize) -> usize {
        self.search.place(i)
    }
}

impl<'s, 'e, 'g, 'a> Search for Instances<'s, 'e, 'g, 'a> {
    ghost use Rattle.std.proofs.Common.{refl};
    ghost use Rattle.zf_instances.specs.Goals.{planted_goal};

    ghost goal = { λ i. planted_goal i.names i.search };

    ghost stage = { λ i. i.search.stage };

    ghost Counts = { λ i. Unit {0} };

    ghost given = { λ i. refl };

    ghost spread = { λ i. refl };

    fn advance(&mut self) -> Result<Step, AllocError> {
        self.search.advance()
    }
}

impl<'s, 'e, 'g, 'a> Passing for Instances<'s, 'e, 'g, 'a> {
    fn pass(&mut self, count: usize) {
        self.search.pass(count);
    }
}

impl<'s, 'e, 'g, 'a> Ranged for Instances<'s, 'e, 'g, 'a> {
    fn ranges(&self) -> &[Range<Value>] {
        self.search.ranges()
    }
}
