//! Words in pages, of which each word or each bit has a number.
ghost use Rattle.std.specs.Prelude.{◌≡◌, ◌⊎◌, ◌+◌, ◌*◌, ◌<◌, ◌≤◌, ◌/◌, ◌%◌, ℕ, eqb, true};
ghost use Rattle.zf_parts.specs.{bit_of, IsSight, reached};

/// Sixteen words of 64 bits.
#[derive(Drop)]
pub struct Page {
    pub number: usize,
    pub words: [u64; 16],
}

/// From a number on the next one that is marked, or how far none is.
pub enum Sight {
    Marked(usize),
    Free(usize),
}

pub fn has_bit(page: &Page, number: usize) -> bool
    ensures { result ≡ bit_of page.now number }
{
    (page.words[number / 64 % 16] >> (number % 64)) & 1 == 1
}

pub fn set_bit(page: &mut Page, number: usize)
    ensures number { page.new.number ≡ page.old.number }
    ensures there { bit_of page.new number ≡ true }
    ensures others { (n : ℕ) → (n % 1024 ≡ number % 1024) ⊎ (bit_of page.new n ≡ bit_of page.old n) }
{
    let word = number / 64 % 16;
    page.words[word] = page.words[word] | 1u64 << (number % 64);
}

/// A page that has what its entry says: one number, or none.
pub fn page_of(entry: usize, number: usize) -> Page
    ensures number { result.number ≡ number }
    ensures bits { (n : ℕ) → bit_of result n ≡ eqb entry (n % 1024 + 1) }
{
    let mut page = Page {
        number,
        words: [0; 16],
    };
    if entry == 0 {
        return page;
    }
    if entry > 1_024 {
        return page;
    }
    set_bit(&mut page, entry - 1);
    page
}

/// What the word of a number has from there on.
pub fn bit_ahead(page: &Page, number: usize) -> Sight
    requires { number < 134217728 }
    ensures ahead { IsSight (bit_of page.now) number result }
    ensures within { reached result ≤ (number / 1024 + 1) * 1024 }
{
    let word = number / 64;
    let bits = page.words[word % 16] >> (number % 64);
    if bits == 0 {
        Sight::Free((word + 1) * 64)
    } else {
        Sight::Marked(number + bits.trailing_zeros() as usize)
    }
}

/// What a page with this entry has from a number on, where it is not kept.
pub fn entry_ahead(entry: usize, number: usize) -> Sight
    requires { number < 134217728 }
    ensures ahead { IsSight (λ n. eqb entry (n % 1024 + 1)) number result }
    ensures within { reached result ≤ (number / 1024 + 1) * 1024 }
{
    let first = number / 1_024 * 1_024;
    if entry > 1_024 {
        return Sight::Free(first + 1_024);
    }
    if number < first + entry {
        Sight::Marked(first + entry - 1)
    } else {
        Sight::Free(first + 1_024)
    }
}
