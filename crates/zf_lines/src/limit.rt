//! How many rows may still be written.
ghost use Rattle.std.specs.Prelude.{◌≡◌, ◌+◌, Some, MatchBool, option_map};
ghost use Rattle.zf_lines.specs.{HasLimit};

/// How many rows are left to be written, after one more.
pub fn one_less(left: Option<u64>) -> Option<u64>
    requires { HasLimit left }
    ensures { left ≡ option_map (λ n. n + 1) result }
{
    match left {
        None => None,
        Some(number) => Some(number - 1),
    }
}

/// Whether no row is left to be written.
pub fn is_spent(left: Option<u64>) -> bool
    ensures { MatchBool result (left ≡ Some 0) (HasLimit left) }
{
    match left {
        None => false,
        Some(number) => number == 0,
    }
}
