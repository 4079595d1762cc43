//! The front and the back of bytes.
ghost use Rattle.std.specs.Prelude.{◌≡◌, take, drop};

/// The bytes before a place.
pub fn front(text: &[u8], len: usize) -> &[u8]
    ensures { result.now ≡ take len text.now }
{
    text.split_at(len.min(text.len())).0
}

/// The bytes after a place.
pub fn back(text: &[u8], start: usize) -> &[u8]
    ensures { result.now ≡ drop start text.now }
{
    text.split_at(start.min(text.len())).1
}
