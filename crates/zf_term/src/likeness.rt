//! Names that are easily taken for one another.
ghost use Rattle.std.specs.Prelude.{◌≡◌, ◌<◌, ◌≢◌, length, slice_index};
ghost use Rattle.zf_term.specs.Likeness as spec;

/// Whether the names differ by case or by one letter, whatever their strokes.
pub fn is_like(name: &[u8], other: &[u8]) -> bool
    ensures { result ≡ spec.is_like name.now other.now }
{
    are_like(without_strokes(name), without_strokes(other))
}

/// The same of names without strokes.
fn are_like(name: &[u8], other: &[u8]) -> bool
    ensures { result ≡ spec.are_like name.now other.now }
{
    if name.eq_ignore_ascii_case(other) {
        return true;
    }
    (2 <= name.len() || 2 <= other.len()) && differ_by_one(name, other)
}

/// The name without its strokes.
fn without_strokes(name: &[u8]) -> &[u8]
    ensures { result.now ≡ spec.without_strokes name.now }
{
    let mut before = 0;
    for place in 0..name.len() {
        if begins_stroke(before, name[place]) {
            return &name[..place];
        }
        before = name[place];
    }
    name
}

/// Whether a stroke begins with the byte that follows the one before.
fn begins_stroke(before: u8, byte: u8) -> bool
    ensures { result ≡ spec.begins_stroke before byte }
{
    byte == b'\'' || byte == b'?' || byte == b'!' || (byte == b'_' && before != b'\\')
}

/// Whether one letter is left out, inserted or replaced, or none is.
fn differ_by_one(name: &[u8], other: &[u8]) -> bool
    ensures { result ≡ spec.differ_by_one name.now other.now }
{
    for place in 0..name.len().min(other.len()) {
        if name[place] != other[place] {
            return differ_at_first(&name[place..], &other[place..]);
        }
    }
    name.len().abs_diff(other.len()) <= 1
}

/// The same of names that differ in their first letters.
fn differ_at_first(name: &[u8], other: &[u8]) -> bool
    requires some { 0 < length name.now }
    requires others { 0 < length other.now }
    requires first { slice_index name.now 0 ≢ slice_index other.now 0 }
    ensures { result ≡ spec.differ_by_one name.now other.now }
{
    let further = &name[1..];
    let other_further = &other[1..];
    further == other || name == other_further || further == other_further
}
