//! Lists in chunks hold the items of one list, also past one chunk.
use bumpalo::Bump;
use std::alloc::AllocError;
use std::test::Fail;
use zf_data::arena::{Chunked, Share};

#[derive(Drop)]
struct Number(usize);

impl Share for Number {
    fn shared(&self) -> Result<Number, AllocError> {
        Ok(Number(self.0))
    }
}

/// A list of 130 items takes in one whose first chunk is small; another one that shares its chunks keeps what it had.
#[test]
fn chunks_are_one_list(rt: HostRuntime) -> Result<(), Fail> {
    let arena = Bump::new(rt.alloc());
    let mut further = counted(&arena, 130, 2)?;
    further.append(&counted(&arena, 132, 130)?)?;
    let mut list = counted(&arena, 0, 130)?;
    let first = list.share(1)?;
    list.append(&further)?;
    let same = list.share(0)?;
    list.push(Number(262))?;
    for (numbers, count) in [(&first, 130), (&same, 262), (&list, 263)] {
        assert_eq!(rt; numbers.len(), count);
        assert!(rt; counts(numbers, count), "{count}");
    }
    Ok(())
}

/// Three lists, each taken by the one before it, are one list.
#[test]
fn lists_that_are_taken_are_one(rt: HostRuntime) -> Result<(), Fail> {
    let arena = Bump::new(rt.alloc());
    let mut list = counted(&arena, 0, 2)?;
    list.take(counted(&arena, 2, 2)?)?;
    list.take(counted(&arena, 4, 126)?)?;
    list.take(counted(&arena, 130, 130)?)?;
    assert_eq!(rt; list.len(), 260);
    assert!(rt; counts(&list, 260));
    Ok(())
}

/// So many numbers, from the first one on.
fn counted<'a>(
    arena: &'a Bump,
    first: usize,
    count: usize,
) -> Result<Chunked<'a, Number>, AllocError> {
    let mut numbers = Chunked::new(arena);
    for place in 0..count {
        numbers.push(Number(first.saturating_add(place)))?;
    }
    Ok(numbers)
}

/// Whether these are so many numbers, from 0 on.
fn counts<'a>(numbers: &Chunked<'a, Number>, count: usize) -> bool {
    let mut next = 0;
    for number in numbers.iter() {
        if number.0 != next {
            return false;
        }
        next = next.wrapping_add(1);
    }
    next == count
}
