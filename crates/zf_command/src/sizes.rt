//! Size words: `NAME=SIZE`; and the others among which they stand.
ghost use Rattle.std.specs.Prelude.{◌≡◌, IfOk, IsErrOf, MatchOption, map};
ghost use Rattle.std.specs.List.{AllZip};
ghost use Rattle.zf_command.specs.Jobs as spec;
ghost use Rattle.zf_command.specs.{HasBadSize, IsBadSize, ReadsSize};
ghost use Rattle.zf_command.specs.declared.job.UsageFault.TheVariants.{BadWords};

use crate::job::{Size, UsageFault};
use crate::numerals::number_of;
use std::alloc::{AllocError, Global};
use zf_data::{Items, Word};

/// The sizes of the words, in their order.
pub fn sizes_of(alloc: Global, words: &[&str]) -> Result<Items<Size>, UsageFault>
    ensures read { IfOk result (λ sizes. AllZip ReadsSize (map (λ w. w.now) words.now) sizes) }
    ensures refused { IsErrOf result BadWords → HasBadSize (map (λ w. w.now) words.now) }
{
    let mut sizes = Items::new(alloc);
    for word in words {
        sizes.push(size_of(alloc, word)?)?;
    }
    Ok(sizes)
}

/// The size of a word.
pub fn size_of(alloc: Global, word: &str) -> Result<Size, UsageFault>
    ensures read { IfOk result (λ size. ReadsSize word.now size) }
    ensures refused { IsErrOf result BadWords → IsBadSize word.now }
{
    match parts_of(word) {
        Some((name, count)) => Ok(Size {
            name: Word::of(alloc, name)?,
            count,
        }),
        None => Err(UsageFault::BadWords),
    }
}

/// The name and the size of a word.
pub fn parts_of(word: &str) -> Option<(&str, u64)>
    ensures { MatchOption result (IsBadSize word.now)
        (λ parts. ReadsSize word.now (record { name = parts.0.now; count = parts.1 })) }
{
    let (name, digits) = word.split_once('=')?;
    if name.is_empty() {
        return None;
    }
    Some((name, number_of(digits)?))
}

/// Whether a word is a size word: it has a `=`.
pub fn is_size_word(word: &str) -> bool
    ensures { result ≡ spec.is_size_word word.now }
{
    word.as_bytes().contains(&b'=')
}

/// The size words among the words, in their order.
pub fn size_words<'a>(alloc: Global, words: &[&'a str]) -> Result<Vec<&'a str>, AllocError>
    ensures { IfOk result (λ v. map (λ w. w.now) v.items ≡ spec.size_words (map (λ w. w.now) words.now)) }
{
    let mut found = Vec::new(alloc);
    for word in words {
        if is_size_word(word) {
            found.push(*word)?;
        }
    }
    Ok(found)
}

/// The other words, in their order.
pub fn other_words(alloc: Global, words: &[&str]) -> Result<Items<Word>, AllocError>
    ensures { IfOk result (λ others. others ≡ spec.other_words (map (λ w. w.now) words.now)) }
{
    let mut others = Items::new(alloc);
    for word in words {
        if !is_size_word(word) {
            others.push(Word::of(alloc, word)?)?;
        }
    }
    Ok(others)
}
