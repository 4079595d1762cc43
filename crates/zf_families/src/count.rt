//! How many members a set has, counted no further than one more than a set may have.
ghost use Rattle.std.specs.Prelude.{◌≡◌, ◌+◌, ◌*◌, ◌^◌, ◌<◌, min, length};
ghost use Rattle.zf_families.specs.Counts as counts;
ghost use Rattle.zf_families.specs.{stepped};

use zf_value::SET_MAX;

/// So many times so many.
pub fn product(count: usize, size: usize) -> usize
    ensures { result ≡ min (count * size) (SET_MAX + 1) }
{
    count.saturating_mul(size).min(SET_MAX + 1)
}

/// So many, as often as is said, times each other.
pub fn power(base: usize, exponent: usize) -> usize
    ensures { result ≡ min (base ^ exponent) (SET_MAX + 1) }
{
    let mut count = 1;
    for _turn in 0..exponent {
        count = product(count, base);
    }
    count
}

/// So many, one less, and so on, as often as is said, times each other: how many injections there are.
pub fn falling(from: usize, turns: usize) -> usize
    ensures { result ≡ min (counts.falling from turns) (SET_MAX + 1) }
{
    let mut count = 1;
    for turn in 0..turns {
        count = product(count, from.saturating_sub(turn));
    }
    count
}

/// Where both sets have so many members, there are more partial injections than are counted.
const REACH: usize = 18;

/// How many partial injections go from so many to so many.
pub fn partial_injections(from: usize, to: usize) -> usize
    ensures { result ≡ min (counts.partial_injection_count from to) (SET_MAX + 1) }
{
    if from >= REACH && to >= REACH {
        return SET_MAX + 1;
    }
    let mut reached = [1; REACH];
    for _turn in 0..from {
        step(&mut reached, to);
    }
    reached[0]
}

/// Of how many partial injections go to so many, to one less, and so on: how many do from one more.
fn step(reached: &mut [usize], to: usize)
    requires { 0 < length reached.old }
    ensures { reached.new ≡ stepped to reached.old }
{
    for used in 0..reached.len() - 1 {
        let further = product(reached[used + 1], to.saturating_sub(used));
        reached[used] = reached[used].saturating_add(further).min(SET_MAX + 1);
    }
}
