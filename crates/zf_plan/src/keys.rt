//! Keys of the values of components.
ghost use Rattle.std.specs.Prelude.{◌≡◌, ◌+◌, ◌<◌, ◌≤◌, ℕ, [], length, slice_index_or, Contains, IfOk, OnOk};
ghost use Rattle.zf_plan.specs.Prelude.{AreDueWithin};
ghost use Rattle.zf_plan.specs.{AreKeyed, AreKeys, StaysIn};

use crate::guide::Guide;
use std::alloc::{AllocError, Global};
use std::marker::Model;
use zf_walk::{Judge, Range};

/// The keys of the values of the last component that a leaf needs; none where it has none.
#[derive(Drop)]
pub struct Keyed {
    pub keys: Vec<u64>,
}

impl Model for Keyed {
    ghost use Rattle.std.specs.Prelude.{ℕ, List};
    ghost use Rattle.std.specs.Coded.{coded_list, coded_ℕ};

    ghost Value = { List ℕ };

    ghost coded = { coded_list coded_ℕ };

    ghost view = { λ l. l.keys.items };
}

/// The keys for each leaf; none where tests are counted.
pub fn all_keys<V: Ord, J: Guide<V>>(
    alloc: Global,
    judge: &J,
    ranges: &[Range<V>],
    plain: bool,
) -> Result<Vec<Keyed>, AllocError>
    requires { AreDueWithin (J.conjuncts judge.now) (length ranges.now) }
    ensures { IfOk result (λ all. AreKeyed (J.conjuncts judge.now) (J.is_key judge.now) ranges.now all.items) }
{
    let mut all = Vec::new(alloc);
    if plain {
        return Ok(all);
    }
    for leaf in 0..judge.count() {
        let keys = keys_of(alloc, judge, ranges, leaf)?;
        all.push(Keyed { keys })?;
    }
    Ok(all)
}

/// The keys for a leaf, up to the first value of the last component that it needs which has none. They are made where it may be asked often what it leaves of many values.
fn keys_of<V: Ord, J: Guide<V>>(
    alloc: Global,
    judge: &J,
    ranges: &[Range<V>],
    leaf: usize,
) -> Result<Vec<u64>, AllocError>
    requires leaf { leaf < (J.conjuncts judge.now).number }
    requires due { (J.conjuncts judge.now).due leaf ≤ length ranges.now }
    ensures { IfOk result (λ keys. (k : ℕ) → (J.conjuncts judge.now).due leaf ≡ k + 1 → AreKeys (J.is_key judge.now leaf) (slice_index_or ranges.now k []) keys.items) }
{
    let due = judge.due(leaf);
    let mut keys = Vec::new(alloc);
    if due == 0 || !has_many_rows(judge, ranges, leaf, due - 1) {
        return Ok(keys);
    }
    let range = &ranges[due - 1];
    let count = range.values.len();
    if count < 32 {
        return Ok(keys);
    }
    for place in 0..count {
        match judge.key(leaf, ranges, &[], Some(place))? {
            None => return Ok(keys),
            Some(key) => keys.push(key)?,
        }
    }
    Ok(keys)
}

/// Whether the components before one that a leaf uses have at least eight rows.
fn has_many_rows<V, J: Judge<V>>(
    judge: &J,
    ranges: &[Range<V>],
    leaf: usize,
    component: usize,
) -> bool
    requires leaf { leaf < (J.conjuncts judge.now).number }
    requires component { component ≤ length ranges.now }
{
    let mut rows: usize = 1;
    for before in 0..component {
        if judge.uses(leaf, before) {
            let range = &ranges[before];
            rows = rows.saturating_mul(range.values.len());
        }
    }
    rows >= 8
}

/// Gathers the places of this key.
pub fn gather_keyed(keys: &[u64], wanted: u64, gathered: &mut Vec<usize>) -> Result<(), AllocError>
    ensures stay { StaysIn gathered.old.items gathered.new.items }
    ensures all { OnOk result ((i : ℕ) → i < length keys.now → slice_index_or keys.now i 0 ≡ wanted → Contains gathered.new.items i) }
{
    for place in 0..keys.len() {
        if keys[place] == wanted {
            gathered.push(place)?;
        }
    }
    Ok(())
}
