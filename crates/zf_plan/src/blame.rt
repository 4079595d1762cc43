//! Components as the bits of words.
ghost use Rattle.std.specs.Prelude.{◌<◌, ◌≤◌, ℕ};
ghost use Rattle.zf_plan.specs.Prelude.{HasBit};

use zf_walk::has_bit;

/// The word of so many first components.
pub fn first_bits(number: usize) -> u64
    requires { number < 64 }
    ensures { (i : ℕ) → i < number → HasBit result i }
{
    (1u64 << number) - 1
}

/// How many first components end with the last one before a range of which the word has a bit.
pub fn last_blamed(word: u64, range: usize) -> usize
    ensures few { result ≤ range }
    ensures none { (i : ℕ) → result ≤ i → i < range → HasBit word i → ⊥ }
{
    let mut depth = range;
    while depth > 0 && !has_bit(word, depth - 1) {
        depth -= 1;
    }
    depth
}
