//! What a search for the bindings of a schema does, whether it counts its tests or not.
ghost use Rattle.std.specs.Prelude.{◌≡◌, ◌<◌, length, take, IfOk, OnOk, OnErr, IfSome, slice_get, slice_index_or, unwrap_or, []};
ghost use Rattle.zf_enum.specs.Prelude.{value_order, Advances, AreAscending, ended, past, SameRanges, Stays};
ghost use Rattle.zf_enum.specs.{conjuncts_of};

use std::alloc::AllocError;
use zf_meaning::Row;
use zf_value::Value;
use zf_walk::{Range, Step};

/// A row whose values stand in ranges.
pub trait Located: Row {
    ghost use Rattle.std.specs.Prelude.{List};
    ghost use Rattle.zf_value.specs.declared.plain.Value as value;

    /// A range for each value.
    ghost ranges: { Self → List (List value.Value) };

    /// The place of a value in its range.
    fn place(&self, i: usize) -> usize
        requires { i < length (Self.Row.values self.now) }
        ensures { slice_get (Self.Row.values self.now) i ≡ slice_get (slice_index_or (ranges self.now) i []) result };
}

/// The bindings of a schema that are not False, one after another in ascending order. It is also the binding that the last step gave; no values where it gave none.
pub trait Search: Located {
    ghost use Rattle.zf_value.specs.declared.plain.Value as value;
    ghost use Rattle.zf_walk.specs.Progress.{Stage};
    ghost use Rattle.zf_enum.specs.Searches.{Goal};

    /// What it goes by.
    ghost goal: { Self → Goal };

    /// Where it stands.
    ghost stage: { Self → Stage value.Value };

    /// What is right of its number of tests after a step.
    ghost Counts: { Self → Type 0 };

    /// Goes on to the next binding that is not False.
    fn advance(&mut self) -> Result<Step, AllocError>
        ensures goal { goal self.new ≡ goal self.old }
        ensures ranges { SameRanges (stage self.old) (stage self.new) }
        ensures answer { IfOk result (λ step. Advances value_order (conjuncts_of (goal self.old)) step (stage self.old) (stage self.new)) }
        ensures counts { OnOk result (Counts self.new) }
        ensures refused { OnErr result (Stays value_order (conjuncts_of (goal self.old)) (stage self.old) (stage self.new)) }
        ensures ended { (stage self.old).ahead ≡ ended → result ≡ Ok Step.End };

    ghost given: { (s : Self) → Self.Row.values s ≡ unwrap_or (stage s).last [] };

    ghost spread: { (s : Self) → Self.Located.ranges s ≡ (stage s).ranges };
}

/// A search that can pass over bindings.
pub trait Passing: Search {
    /// Passes over the bindings ahead that begin with as many first values as the one that the last step gave.
    fn pass(&mut self, count: usize)
        ensures goal { Self.Search.goal self.new ≡ Self.Search.goal self.old }
        ensures ranges { SameRanges (Self.Search.stage self.old) (Self.Search.stage self.new) }
        ensures passed { IfSome (Self.Search.stage self.old).last (λ row. (Self.Search.stage self.new).ahead ≡ past (take count row)) };
}

/// A search that shows what it goes over.
pub trait Ranged: Search {
    /// The ranges of the components.
    fn ranges(&self) -> &[Range<Value>]
        ensures is { result.now ≡ (Self.Search.stage self.now).ranges }
        ensures ascending { AreAscending value_order result.now };
}
