//! The search for the bindings of a schema.
ghost use Rattle.std.specs.Prelude.{◌≡◌, ◌≤◌, length, IfOk, OnOk, OnErr};
ghost use Rattle.zf_enum.specs.Prelude.{option_copied, value_order, Advances, AreAllAhead, AreAscending, AreDueWithin, AreTests, ended, HasLength, IsBounded, SameProblem, Stays};
ghost use Rattle.zf_enum.specs.{judged};

use crate::property::Property;
use crate::search::{Located, Search};
use std::alloc::{AllocError, Global};
use zf_meaning::Row;
use zf_plan::Walk;
use zf_value::Value;
use zf_walk::{Range, Step};

/// The bindings of a schema that are not False, one after another in ascending order.
#[derive(Drop)]
pub struct Bindings<'s, 'e, 'g, 'a> {
    walk: Walk<'s, Value, Property<'e, 'g, 'a>>,
}

impl<'s, 'e, 'g, 'a> Bindings<'s, 'e, 'g, 'a> {
    /// Stands before the first event in these ranges. The named row need not be in them.
    pub fn over(
        alloc: Global,
        property: Property<'e, 'g, 'a>,
        ranges: Vec<Range<Value>>,
        after: Option<&'s [Value]>,
    ) -> Result<Bindings<'s, 'e, 'g, 'a>, AllocError>
        requires ascending { AreAscending value_order ranges.items }
        requires named { HasLength (option_copied after) (length ranges.items) }
        requires due { AreDueWithin (judged property) (length ranges.items) }
        ensures problem { IfOk result (λ b. (b.walk.judge ≡ property.entry) × (b.walk.stage.ranges ≡ ranges.items) × (b.walk.stage.after ≡ option_copied after.entry)) }
        ensures events { IfOk result (λ b. AreAllAhead value_order (judged property.entry) ranges.items (option_copied after.entry) b.walk.stage.ahead) }
        ensures first { IfOk result (λ b. (b.walk.stage.last ≡ None) × (b.walk.tests ≡ 0)) }
    {
        let walk = Walk::start(alloc, property, ranges, after)?;
        Ok(Bindings { walk })
    }

    /// Goes on to the next binding that is not False.
    pub fn advance(&mut self) -> Result<Step, AllocError>
        ensures problem { SameProblem self.old.walk self.new.walk }
        ensures answer { IfOk result (λ step. Advances value_order (judged self.old.walk.judge) step self.old.walk.stage self.new.walk.stage) }
        ensures tests { OnOk result (AreTests value_order (judged self.old.walk.judge) self.new.walk self.new.walk.stage.last) }
        ensures refused { OnErr result (Stays value_order (judged self.old.walk.judge) self.old.walk.stage self.new.walk.stage) }
        ensures no_test_lost { self.old.walk.tests ≤ self.new.walk.tests }
        ensures ended { self.old.walk.stage.ahead ≡ ended → result ≡ Ok Step.End }
    {
        self.walk.advance()
    }

    /// How many tests were finished.
    pub fn tests(&self) -> u64
        ensures count { result ≡ self.now.walk.tests }
        ensures bounded { IsBounded value_order (judged self.now.walk.judge) self.now.walk result }
    {
        self.walk.tests()
    }
}

/// The binding that the last step gave; no values where it gave none.
impl<'s, 'e, 'g, 'a> Row for Bindings<'s, 'e, 'g, 'a> {
    ghost use Rattle.std.specs.Prelude.{unwrap_or, []};

    ghost values = { λ b. unwrap_or b.walk.stage.last [] };

    fn len(&self) -> usize {
        zf_walk::Row::len(&self.walk)
    }

    fn get(&self, place: usize) -> &Value {
        zf_walk::Row::get(&self.walk, place)
    }
}

impl<'s, 'e, 'g, 'a> Located for Bindings<'s, 'e, 'g, 'a> {
    ghost ranges = { λ b. b.walk.stage.ranges };

    fn place(&self, i: usize) -> usize {
        self.walk.place(i)
    }
}

impl<'s, 'e, 'g, 'a> Search for Bindings<'s, 'e, 'g, 'a> {
    ghost use Rattle.std.proofs.Common.{refl};
    ghost use Rattle.zf_value.specs.Sets.{value_order};
    ghost use Rattle.zf_walk.specs.Progress.{AreTests};
    ghost use Rattle.zf_enum.specs.Searches.{counted_goal, judged};

    ghost goal = { λ b. counted_goal b.walk };

    ghost stage = { λ b. b.walk.stage };

    ghost Counts = { λ b. AreTests value_order (judged b.walk.judge) b.walk b.walk.stage.last };

    ghost given = { λ b. refl };

    ghost spread = { λ b. refl };

    fn advance(&mut self) -> Result<Step, AllocError> {
        self.walk.advance()
    }
}
