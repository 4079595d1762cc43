//! Numbers of which it is known between which two they lie, by the value of the next component.
ghost use Rattle.std.specs.Prelude.{◌≡◌, ℤ, ◌+ℤ◌, ◌-ℤ◌, ◌*ℤ◌, IfOk, Some};
ghost use Rattle.zf_enum.specs.{IsSmall};
ghost use Rattle.zf_enum.specs.Spans.{Spans};
ghost use Rattle.zf_enum.specs.declared.interval.Untold.TheVariants.{OutOfMemory};

use std::alloc::AllocError;

/// What an expression comes to with a value of the next component: so many times that value, and a number from one to another.
#[derive(Clone, Copy)]
pub(crate) struct Interval {
    pub(crate) times: i32,
    pub(crate) low: i32,
    pub(crate) high: i32,
}

/// Why it isn't known what an expression comes to.
#[derive(Drop)]
pub(crate) enum Untold {
    Unknown,
    OutOfMemory,
}

impl From<AllocError> for Untold {
    ghost from_gives = { λ _ why. why ≡ OutOfMemory };

    fn from(_error: AllocError) -> Untold {
        Untold::OutOfMemory
    }
}

impl Interval {
    /// This number.
    pub(crate) fn point(n: i32) -> Interval
        ensures { (v : ℤ) → Spans result v n }
    {
        Interval {
            times: 0,
            low: n,
            high: n,
        }
    }

    /// What this number comes to with a value, as the lowest or the highest one.
    pub(crate) fn at(self, value: i32, end: i32) -> i64
        ensures { result ≡ (self.times *ℤ value) +ℤ end }
    {
        i64::from(self.times) * i64::from(value) + i64::from(end)
    }

    pub(crate) fn plus(self, other: Interval) -> Result<Interval, Untold>
        ensures { IfOk result (λ s. IsSmall s × ((v m n : ℤ) → Spans self v m → Spans other v n → Spans s v (m +ℤ n))) }
    {
        made(
            self.times.checked_add(other.times),
            self.low.checked_add(other.low),
            self.high.checked_add(other.high),
        )
    }

    pub(crate) fn minus(self, other: Interval) -> Result<Interval, Untold>
        ensures { IfOk result (λ s. IsSmall s × ((v m n : ℤ) → Spans self v m → Spans other v n → Spans s v (m -ℤ n))) }
    {
        made(
            self.times.checked_sub(other.times),
            self.low.checked_sub(other.high),
            self.high.checked_sub(other.low),
        )
    }

    /// The product, where one side is a number.
    pub(crate) fn product(self, other: Interval) -> Result<Interval, Untold>
        ensures { IfOk result (λ s. IsSmall s × ((v m n : ℤ) → Spans self v m → Spans other v n → Spans s v (m *ℤ n))) }
    {
        if self.times == 0 && self.low == self.high {
            return other.multiplied(self.low);
        }
        if other.times == 0 && other.low == other.high {
            return self.multiplied(other.low);
        }
        Err(Untold::Unknown)
    }

    pub(crate) fn multiplied(self, factor: i32) -> Result<Interval, Untold>
        ensures { IfOk result (λ s. IsSmall s × ((v n : ℤ) → Spans self v n → Spans s v (factor *ℤ n))) }
    {
        let times = factor.checked_mul(self.times);
        let one = factor.checked_mul(self.low);
        let other = factor.checked_mul(self.high);
        if factor < 0 {
            made(times, other, one)
        } else {
            made(times, one, other)
        }
    }
}

/// An interval of these numbers, where they have 32 bits.
fn made(times: Option<i32>, low: Option<i32>, high: Option<i32>) -> Result<Interval, Untold>
    ensures { IfOk result (λ s. IsSmall s × (times ≡ Some s.times) × (low ≡ Some s.low) × (high ≡ Some s.high)) }
{
    let Some(times) = times else {
        return Err(Untold::Unknown);
    };
    let Some(low) = low else {
        return Err(Untold::Unknown);
    };
    let Some(high) = high else {
        return Err(Untold::Unknown);
    };
    Ok(Interval { times, low, high })
}
