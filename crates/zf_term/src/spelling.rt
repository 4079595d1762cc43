//! Spellings of names: whether two are the same.
ghost use Rattle.std.specs.Prelude.{◌≡◌};
ghost use Rattle.std.specs.Str.{bytes_eq};

/// Whether the spellings are equal. Most that are not differ in their lengths.
#[inline(always)]
#[tactic(auto, using(crate::proofs::SameNames::lengths_differ))]
pub fn is_same(left: &[u8], right: &[u8]) -> bool
    ensures { result ≡ bytes_eq left.now right.now }
{
    if left.len() != right.len() {
        return false;
    }
    are_same(left, right)
}

/// The same, byte by byte: names are short, and this costs less than a comparison of slices.
fn are_same(left: &[u8], right: &[u8]) -> bool
    ensures { result ≡ bytes_eq left.now right.now }
{
    let mut left = left;
    let mut right = right;
    loop {
        let [first, more @ ..] = left else {
            return right.is_empty();
        };
        let [second, further @ ..] = right else {
            return false;
        };
        if *first != *second {
            return false;
        }
        left = more;
        right = further;
    }
}
