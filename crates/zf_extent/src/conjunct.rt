//! What offends in conjuncts.
ghost use Rattle.std.specs.Prelude.{◌≡◌, flat_map, map};
ghost use Rattle.zf_data.specs.{all_of};
ghost use Rattle.zf_term.specs.{batch_of, conjunct_of, globals_of};
ghost use Rattle.std.specs.Option.{option_or};
ghost use Rattle.zf_extent.specs.Extents as extents;

use crate::infinite;
use crate::offender::Offender;
use zf_data::arena::Items;
use zf_term::{Batch, Conjunct, Globals};

/// What was found before, or the first in the conjunct that offends.
#[cycle(conjuncts)]
pub fn offending_after<'a>(
    conjunct: &Conjunct<'a>,
    found: Option<Offender>,
    globals: &Globals<'a>,
) -> Option<Offender>
    ensures { result ≡ option_or found (extents.first (extents.offending (globals_of globals.now) (conjunct_of conjunct.now))) }
{
    match conjunct {
        Conjunct::Term(term, _) => infinite::offending_after(term.get(), found, globals),
        Conjunct::Member(_, set, _) => {
            infinite::offending_within_after(set.get(), found, globals)
        }
        Conjunct::Either(_, left, right, _) => {
            let offender = side_offending_after(left.get(), found, globals);
            side_offending_after(right.get(), offender, globals)
        }
    }
}

/// The same of one side of a disjunction.
#[cycle(conjuncts)]
fn side_offending_after<'a>(
    batches: &Items<'a, Batch<'a>>,
    found: Option<Offender>,
    globals: &Globals<'a>,
) -> Option<Offender>
    ensures { result ≡ option_or found (extents.first (flat_map (extents.offending (globals_of globals.now)) (all_of (map batch_of batches.now)))) }
{
    let mut offender = found;
    for batch in batches.as_slice() {
        offender = all_offending_after(batch.conjuncts.get(), offender, globals);
    }
    offender
}

/// The same of several conjuncts.
#[cycle(conjuncts)]
fn all_offending_after<'a>(
    conjuncts: &Items<'a, Conjunct<'a>>,
    found: Option<Offender>,
    globals: &Globals<'a>,
) -> Option<Offender>
    ensures { result ≡ option_or found (extents.first (flat_map (extents.offending (globals_of globals.now)) (map conjunct_of conjuncts.now))) }
{
    let mut offender = found;
    for conjunct in conjuncts.as_slice() {
        offender = offending_after(conjunct, offender, globals);
    }
    offender
}
