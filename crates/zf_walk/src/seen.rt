//! What is known of a conjunct with several values, a bit each.
ghost use Rattle.std.specs.Prelude.{◌≡◌, ◌⊎◌, ◌<◌, ℕ, true, IfSome};
ghost use Rattle.zf_walk.specs.declared.judge.Truth.{Truth};
ghost use Rattle.zf_walk.specs.declared.judge.Truth.TheVariants.{False, True};
ghost use Rattle.zf_walk.specs.{HasBit, IsSeen, unseen};

use crate::judge::Truth;

/// With which of the first 64 values of a component a conjunct is known to be False, and with which True: a bit each.
#[derive(Clone, Copy)]
pub struct Seen {
    pub falses: u64,
    pub trues: u64,
}

impl Seen {
    /// Nothing is known.
    pub fn none() -> Seen
        ensures { result ≡ unseen }
    {
        Seen {
            falses: 0,
            trues: 0,
        }
    }

    /// As of no conjunct: with each value all are True.
    pub fn all() -> Seen
        ensures { (i : ℕ) → IsSeen result i False → ⊥ }
    {
        Seen {
            falses: 0,
            trues: u64::MAX,
        }
    }

    /// What is known of all of some conjuncts and of one more: that one is False, or that all are True.
    pub fn and(self, other: Seen) -> Seen
        ensures refuted { (i : ℕ) → IsSeen result i False → IsSeen self i False ⊎ IsSeen other i False }
        ensures held { (i : ℕ) → IsSeen result i True → IsSeen self i True × IsSeen other i True }
    {
        Seen {
            falses: self.falses | other.falses,
            trues: self.trues & other.trues,
        }
    }

    /// The truth with the value at a place, if it is known.
    pub fn told(self, place: usize) -> Option<Truth>
        ensures { IfSome result (IsSeen self place) }
    {
        if has_bit(self.falses, place) {
            return Some(Truth::False);
        }
        if has_bit(self.trues, place) {
            return Some(Truth::True);
        }
        None
    }

    /// With the truth at one place more.
    pub fn with(self, place: usize, truth: Truth) -> Seen
        requires { place < 64 }
        ensures { (i : ℕ) (t : Truth) → IsSeen result i t → IsSeen self i t ⊎ ((i ≡ place) × (t ≡ truth)) }
    {
        match truth {
            Truth::True => Seen {
                falses: self.falses,
                trues: with_bit(self.trues, place),
            },
            Truth::False => Seen {
                falses: with_bit(self.falses, place),
                trues: self.trues,
            },
            Truth::Out => self,
        }
    }
}

/// Whether a word has the bit of a place.
pub fn has_bit(word: u64, place: usize) -> bool
    ensures only { result ≡ true → HasBit word place }
    ensures all { HasBit word place → result ≡ true }
{
    place < 64 && (word >> place) & 1 == 1
}

/// A word with the bit of one place more.
pub fn with_bit(word: u64, place: usize) -> u64
    requires { place < 64 }
    ensures only { (i : ℕ) → HasBit result i → HasBit word i ⊎ (i ≡ place) }
    ensures more { (i : ℕ) → HasBit word i → HasBit result i }
    ensures this { HasBit result place }
{
    word | 1u64 << place
}
