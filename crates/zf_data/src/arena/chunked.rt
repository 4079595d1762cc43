//! Lists in chunks, which other lists share.
ghost use Rattle.std.specs.Prelude.{◌≡◌, ◌++◌, ◌∷◌, [], ◌<◌, IfOk, MatchOption, OnErr, OnOk, length};
ghost use Rattle.std.specs.Iterator.{YieldsFirstRef, item_count};
ghost use Rattle.std.specs.Mem.{manually_drop_value};
ghost use Rattle.zf_data.specs.{all_of};

use super::{Items, Shared};
use bumpalo::Bump;
use std::alloc::AllocError;
use std::marker::Model;
use std::mem::ManuallyDrop;

/// How many items a chunk has at most that items are added to.
const CHUNK: usize = 64;

/// How many items are copied at most, so that chunks stay few.
const COPIED: usize = 32;

/// What may have one more owner.
pub trait Share: Sized {
    /// The same value, of which nothing is copied.
    fn shared(&self) -> Result<Self, AllocError>
        ensures { IfOk result (λ t. t ≡ self.now) };
}

/// A list with several owners.
pub type Piece<'a, T> = Shared<'a, Items<'a, T>>;

/// One or more items, with several owners.
#[derive(Drop)]
struct Chunk<'a, T> {
    items: Piece<'a, T>,
}

impl<'a, T> Model for Chunk<'a, T> {
    ghost use Rattle.std.specs.Prelude.{◌<◌, List, length};
    ghost use Rattle.std.specs.Coded.{coded_list};

    ghost Value = { List T };

    ghost coded = { coded_list T.code };

    ghost view = { λ c. c.items };

    ghost invariant = { λ c. 0 < length c.items };
}

impl<'a, T> Chunk<'a, T> {
    fn as_slice(&self) -> &[T]
        ensures items { result.now ≡ self.now }
        ensures some { 0 < length self.now }
    {
        self.items.get().as_slice()
    }

    fn len(&self) -> usize
        ensures { result ≡ length self.now }
    {
        self.as_slice().len()
    }
}

impl<'a, T: Drop> Chunk<'a, T> {
    fn new(items: Piece<'a, T>) -> Chunk<'a, T>
        requires { 0 < length items }
        ensures { result ≡ items.entry }
    {
        Chunk { items }
    }

    /// The chunk of one item, with room for so many.
    fn of(arena: &'a Bump, item: T, room: usize) -> Result<Chunk<'a, T>, AllocError>
        ensures { IfOk result (λ c. c ≡ item ∷ []) }
    {
        let mut items = Items::with_room(arena, room.min(CHUNK))?;
        items.push(item)?;
        Ok(Chunk::new(Shared::new(arena, items)?))
    }

    /// The same items, of which nothing is copied.
    fn share(&self) -> Result<Chunk<'a, T>, AllocError>
        ensures { IfOk result (λ c. c ≡ self.now) }
    {
        Ok(Chunk {
            items: self.items.share()?,
        })
    }

    /// The items as a list with several owners.
    fn piece(&self) -> Result<Piece<'a, T>, AllocError>
        ensures { IfOk result (λ p. p ≡ self.now) }
    {
        self.items.share()
    }

    /// Whether no other list has the chunk.
    fn is_lone(&self) -> bool {
        self.items.is_lone()
    }

    /// Adds an item, which comes back where the chunk is full or has another owner.
    fn with(self, item: T) -> (Chunk<'a, T>, Result<Option<T>, AllocError>)
        ensures ok { IfOk result.1 (λ back. MatchOption back (result.0 ≡ self.entry ++ item ∷ []) (λ same. (same ≡ item) × (result.0 ≡ self.entry))) }
        ensures err { OnErr result.1 (result.0 ≡ self.entry) }
    {
        if self.len() >= CHUNK {
            return (self, Ok(Some(item)));
        }
        let (items, answer) = self.items.with(item);
        (Chunk { items }, answer)
    }
}

impl<'a, T: Drop + Share> Chunk<'a, T> {
    /// A copy, with room for so many more items.
    fn copied(&self, arena: &'a Bump, more: usize) -> Result<Chunk<'a, T>, AllocError>
        ensures { IfOk result (λ c. c ≡ self.now) }
    {
        let room = self.len().saturating_add(more);
        let items = copied(arena, self.as_slice(), room)?;
        Ok(Chunk::new(Shared::new(arena, items)?))
    }

    /// A copy, with these items after.
    fn followed(&self, arena: &'a Bump, further: &[T]) -> Result<Chunk<'a, T>, AllocError>
        ensures { IfOk result (λ c. c ≡ self.now ++ further.now) }
    {
        let room = self.len().saturating_add(further.len());
        let mut items = copied(arena, self.as_slice(), room)?;
        push_copies(&mut items, further)?;
        Ok(Chunk::new(Shared::new(arena, items)?))
    }
}

/// A list that contracts see as the list of its items. It stands in chunks, which other lists share.
#[derive(Drop)]
pub struct Chunked<'a, T> {
    chunks: ManuallyDrop<Vec<Chunk<'a, T>, &'a Bump>>,
    count: usize,
    /// The room of the next chunk.
    room: usize,
}

impl<'a, T> Model for Chunked<'a, T> {
    ghost use Rattle.std.specs.Prelude.{◌≡◌, List, length};
    ghost use Rattle.std.specs.Coded.{coded_list};
    ghost use Rattle.std.specs.Mem.{manually_drop_value};
    ghost use Rattle.zf_data.specs.Chunks.{all_of};

    ghost Value = { List T };

    ghost coded = { coded_list T.code };

    ghost view = { λ c. all_of (manually_drop_value c.chunks).items };

    ghost invariant = { λ c. c.count ≡ length (all_of (manually_drop_value c.chunks).items) };
}

impl<'a, T> Chunked<'a, T> {
    pub fn len(&self) -> usize
        ensures { result ≡ length self.now }
    {
        self.count
    }

    /// Where the list stands.
    pub fn arena(&self) -> &'a Bump {
        *self.chunks.allocator()
    }

    /// The items, one after another.
    pub fn iter(&self) -> ChunkedIter<'_, 'a, T>
        ensures { result ≡ self.now }
    {
        ChunkedIter {
            items: &[],
            chunks: self.chunks.as_slice(),
        }
    }
}

impl<'a, T: Drop> Chunked<'a, T> {
    pub fn new(arena: &'a Bump) -> Chunked<'a, T>
        ensures { result ≡ [] }
    {
        Chunked::with_room(arena, 0)
    }

    /// The list of no items. Its first chunk gets room for so many, as far as they stand in one.
    pub fn with_room(arena: &'a Bump, room: usize) -> Chunked<'a, T>
        ensures { result ≡ [] }
    {
        Chunked {
            chunks: ManuallyDrop::new(Vec::new(arena)),
            count: 0,
            room,
        }
    }

    /// The list of one item.
    pub fn of(arena: &'a Bump, item: T) -> Result<Chunked<'a, T>, AllocError>
        ensures { IfOk result (λ c. c ≡ item ∷ []) }
    {
        let mut chunks = Vec::with_capacity(arena, 1)?;
        chunks.push_reserved(Chunk::of(arena, item, 1)?);
        Ok(Chunked {
            chunks: ManuallyDrop::new(chunks),
            count: 1,
            room: 0,
        })
    }

    /// Adds a chunk.
    fn push_chunk(&mut self, chunk: Chunk<'a, T>) -> Result<(), AllocError>
        ensures ok { OnOk result (self.new ≡ self.old ++ chunk.entry) }
        ensures err { OnErr result (self.new ≡ self.old) }
    {
        let Some(count) = self.count.checked_add(chunk.len()) else {
            return Err(AllocError);
        };
        // Most lists have one chunk: the first gets room for itself alone.
        if self.chunks.is_empty() {
            self.chunks.reserve_exact(1)?;
        }
        self.chunks.push(chunk)?;
        self.count = count;
        Ok(())
    }

    /// Adds an item to the last chunk; it comes back where that takes none.
    fn push_last(&mut self, item: T) -> Result<Option<T>, AllocError>
        ensures ok { IfOk result (λ back. MatchOption back (self.new ≡ self.old ++ item ∷ []) (λ same. (same ≡ item) × (self.new ≡ self.old))) }
        ensures err { OnErr result (self.new ≡ self.old) }
    {
        let Some(count) = self.count.checked_add(1) else {
            return Err(AllocError);
        };
        let Some(chunk) = self.chunks.pop() else {
            return Ok(Some(item));
        };
        let (chunk, answer) = chunk.with(item);
        self.chunks.push_reserved(chunk);
        match answer? {
            None => {
                self.count = count;
                Ok(None)
            }
            Some(item) => Ok(Some(item)),
        }
    }
}

impl<'a, T: Drop + Share> Chunked<'a, T> {
    pub fn push(&mut self, item: T) -> Result<(), AllocError>
        ensures ok { OnOk result (self.new ≡ self.old ++ item ∷ []) }
        ensures err { OnErr result (self.new ≡ self.old) }
    {
        self.open(1)?;
        let Some(item) = self.push_last(item)? else {
            return Ok(());
        };
        let chunk = Chunk::of(self.arena(), item, self.room)?;
        self.room = 0;
        self.push_chunk(chunk)
    }

    /// A last chunk that has another owner is copied, with room for so many more items, where they stand in one small chunk.
    fn open(&mut self, more: usize) -> Result<(), AllocError>
        ensures { self.new ≡ self.old }
    {
        let Some(chunk) = self.chunks.last() else {
            return Ok(());
        };
        if chunk.is_lone() || chunk.len().saturating_add(more) > COPIED {
            return Ok(());
        }
        let chunk = chunk.copied(self.arena(), more)?;
        self.chunks.pop();
        self.chunks.push_reserved(chunk);
        Ok(())
    }

    /// The same list, with room for so many more items. Its chunks are shared.
    pub fn share(&self, spare: usize) -> Result<Chunked<'a, T>, AllocError>
        ensures { IfOk result (λ c. c ≡ self.now) }
    {
        let mut same = Chunked::with_room(self.arena(), spare);
        same.chunks
            .reserve_exact(self.chunks.len().saturating_add(1))?;
        same.append(self)?;
        if spare > 0 {
            same.open(spare)?;
        }
        Ok(same)
    }

    /// Adds the items of the other list, whose chunks are shared. After an error some of them may stand there.
    pub fn append(&mut self, other: &Chunked<'a, T>) -> Result<(), AllocError>
        ensures { OnOk result (self.new ≡ self.old ++ other.now) }
    {
        if other.chunks.len() > self.chunks.len() {
            self.chunks.reserve(other.chunks.len())?;
        }
        for chunk in other.chunks.as_slice() {
            self.append_chunk(chunk)?;
        }
        Ok(())
    }

    /// Adds the items of the other list, which is used up. Behind one chunk that list itself is taken, with the chunk before it.
    pub fn take(&mut self, other: Chunked<'a, T>) -> Result<(), AllocError>
        ensures { OnOk result (self.new ≡ self.old ++ other.entry) }
    {
        match self.chunks.as_slice() {
            [] => {
                *self = other;
                Ok(())
            }
            [chunk] => {
                let chunk = chunk.share()?;
                let mut whole = other;
                whole.prepend(chunk)?;
                *self = whole;
                Ok(())
            }
            _ => self.append(&other),
        }
    }

    /// Puts the items of a chunk first. Where they and those of the first chunk are few, they stand in one.
    fn prepend(&mut self, chunk: Chunk<'a, T>) -> Result<(), AllocError>
        ensures { OnOk result (self.new ≡ chunk.entry ++ self.old) }
    {
        if !self.is_roomy_before(chunk.len()) {
            return self.insert_first(chunk);
        }
        match self.remove_first() {
            None => self.insert_first(chunk),
            Some(first) => {
                let both = chunk.followed(self.arena(), first.as_slice())?;
                self.insert_first(both)
            }
        }
    }

    /// Whether so many items stand in one small chunk with the first ones, of which there are some.
    fn is_roomy_before(&self, more: usize) -> bool {
        match self.chunks.first() {
            None => false,
            Some(chunk) => chunk.len().saturating_add(more) <= COPIED,
        }
    }

    fn insert_first(&mut self, chunk: Chunk<'a, T>) -> Result<(), AllocError>
        ensures { OnOk result (self.new ≡ chunk.entry ++ self.old) }
    {
        let Some(count) = self.count.checked_add(chunk.len()) else {
            return Err(AllocError);
        };
        self.chunks.insert(0, chunk)?;
        self.count = count;
        Ok(())
    }

    /// Takes the first chunk off.
    fn remove_first(&mut self) -> Option<Chunk<'a, T>>
        ensures { MatchOption result (self.new ≡ self.old) (λ chunk. self.old ≡ chunk ++ self.new) }
    {
        if self.chunks.is_empty() {
            return None;
        }
        let chunk = self.chunks.remove(0);
        self.count -= chunk.len();
        Some(chunk)
    }

    /// Adds the items of a chunk. A small one is copied after the last items, so that chunks stay few.
    fn append_chunk(&mut self, chunk: &Chunk<'a, T>) -> Result<(), AllocError>
        ensures { OnOk result (self.new ≡ self.old ++ chunk.now) }
    {
        if self.is_roomy(chunk.len()) {
            return self.append_items(chunk.as_slice());
        }
        self.push_chunk(chunk.share()?)
    }

    /// Whether so many items stand in one small chunk with the last ones, of which there are some.
    fn is_roomy(&self, more: usize) -> bool {
        match self.chunks.last() {
            None => false,
            Some(chunk) => chunk.len().saturating_add(more) <= COPIED,
        }
    }

    fn append_items(&mut self, items: &[T]) -> Result<(), AllocError>
        ensures { OnOk result (self.new ≡ self.old ++ items.now) }
    {
        self.open(items.len())?;
        for item in items {
            self.push(item.shared()?)?;
        }
        Ok(())
    }

    /// The chunks, as lists that are shared.
    pub fn pieces(&self) -> Result<Items<'a, Piece<'a, T>>, AllocError>
        ensures { IfOk result (λ pieces. all_of pieces ≡ self.now) }
    {
        let mut pieces = Items::new(self.arena());
        pieces.make_room(self.chunks.len())?;
        for chunk in self.chunks.as_slice() {
            pieces.push(chunk.piece()?)?;
        }
        Ok(pieces)
    }

    /// The items, as one list that is shared.
    pub fn piece(&self) -> Result<Piece<'a, T>, AllocError>
        ensures { IfOk result (λ piece. piece ≡ self.now) }
    {
        match self.chunks.as_slice() {
            [chunk] => chunk.piece(),
            _ => Shared::new(self.arena(), self.flat()?),
        }
    }

    /// The items, in one piece.
    pub fn flat(&self) -> Result<Items<'a, T>, AllocError>
        ensures { IfOk result (λ items. items ≡ self.now) }
    {
        let mut items = Items::with_room(self.arena(), self.count)?;
        for item in self.iter() {
            items.push(item.shared()?)?;
        }
        Ok(items)
    }
}

/// The same items, in a list with room for so many.
fn copied<'a, T: Drop + Share>(
    arena: &'a Bump,
    items: &[T],
    room: usize,
) -> Result<Items<'a, T>, AllocError>
    ensures { IfOk result (λ same. same ≡ items.now) }
{
    let mut same = Items::with_room(arena, room)?;
    push_copies(&mut same, items)?;
    Ok(same)
}

/// The same items after the others.
fn push_copies<'a, T: Drop + Share>(
    others: &mut Items<'a, T>,
    items: &[T],
) -> Result<(), AllocError>
    ensures { OnOk result (others.new ≡ others.old ++ items.now) }
{
    for item in items {
        others.push(item.shared()?)?;
    }
    Ok(())
}

/// The items of a list in chunks that are still ahead.
#[derive(Drop)]
pub struct ChunkedIter<'b, 'a, T> {
    items: &'b [T],
    chunks: &'b [Chunk<'a, T>],
}

impl<'b, 'a, T> Model for ChunkedIter<'b, 'a, T> {
    ghost use Rattle.std.specs.Prelude.{◌++◌, List};
    ghost use Rattle.std.specs.Coded.{coded_list};
    ghost use Rattle.zf_data.specs.Chunks.{all_of};

    ghost Value = { List T };

    ghost coded = { coded_list T.code };

    ghost view = { λ i. i.items.now ++ all_of i.chunks.now };
}

impl<'b, 'a, T> Iterator for ChunkedIter<'b, 'a, T> {
    type Item = &'b T;

    ghost next_gives = { YieldsFirstRef (λ i. i) };

    ghost remaining = { item_count (λ i. i) };

    fn next(&mut self) -> Option<&'b T> {
        if let Some((first, items)) = self.items.split_first() {
            self.items = items;
            return Some(first);
        }
        if self.chunks.is_empty() {
            return None;
        }
        let (first, items) = self.chunks[0].as_slice().split_first()?;
        self.items = items;
        self.chunks = &self.chunks[1..];
        Some(first)
    }
}
