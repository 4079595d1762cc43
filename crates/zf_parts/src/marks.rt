//! Numbers that are marked.
ghost use Rattle.std.specs.Prelude.{◌≡◌, ◌⊎◌, ◌+◌, ◌<◌, ◌≤◌, ◌/◌, ◌%◌, ℕ, eqb, false, true, MatchOption, IfOk, OnOk};
ghost use Rattle.zf_parts.specs.{AreFree, has_in, is_marked, IsPlaced, IsSight, word_at};

use crate::page::{Page, Sight, bit_ahead, entry_ahead, has_bit, page_of, set_bit};
use crate::words::Words;
use std::alloc::{AllocError, Global};

/// How many numbers a page has.
const MANY: usize = 1_024;

/// Which numbers are marked: of those of a page the first that comes is its entry. With the second one the page is made, with a bit for each.
#[derive(Drop)]
pub struct Marks {
    /// Of each page 0, or the place of its only number, from 1 on, or, from 1,025 on, that of the page.
    pub entries: Words,
    pub pages: Vec<Page>,
}

impl Marks {
    /// None is marked.
    pub fn new(alloc: Global) -> Marks
        ensures { (n : ℕ) → is_marked result n ≡ false }
    {
        Marks {
            entries: Words::new(alloc),
            pages: Vec::new(alloc),
        }
    }

    pub fn has(&self, number: usize) -> bool
        ensures { result ≡ is_marked self.now number }
    {
        let entry = self.entries.get(number / MANY) as usize;
        match place_of(&self.pages, entry, number / MANY) {
            None => entry == number % MANY + 1,
            Some(place) => has_bit(&self.pages[place], number),
        }
    }

    /// Marks one number more.
    pub fn mark(&mut self, number: usize) -> Result<(), AllocError>
        ensures there { OnOk result (is_marked self.new number ≡ true) }
        ensures others { OnOk result ((n : ℕ) → (n ≡ number) ⊎ (is_marked self.new n ≡ is_marked self.old n)) }
    {
        let entry = self.entries.get(number / MANY) as usize;
        if entry == 0 {
            self.entries.put(number / MANY, (number % MANY + 1) as u64)?;
            return Ok(());
        }
        let place = self.open(entry, number / MANY)?;
        set_bit(&mut self.pages[place], number);
        Ok(())
    }

    /// The place of a page with this entry, which is made if it is not kept.
    fn open(&mut self, entry: usize, page: usize) -> Result<usize, AllocError>
        requires entry { entry ≡ word_at self.old.entries page }
        ensures kept { IfOk result (IsPlaced self.new.pages.items (word_at self.new.entries page) page) }
        ensures same { OnOk result ((n : ℕ) → is_marked self.new n ≡ is_marked self.old n) }
    {
        if let Some(place) = place_of(&self.pages, entry, page) {
            return Ok(place);
        }
        let last = self.pages.len();
        self.pages.push(page_of(entry, page))?;
        self.entries.put(page, (last + MANY + 1) as u64)?;
        Ok(last)
    }

    /// The next number that is marked, from one on, or the end.
    pub fn next(&self, from: usize, end: usize) -> usize
        requires low { from ≤ end }
        requires few { end ≤ 134217728 }
        ensures within { (from ≤ result) × (result ≤ end) }
        ensures free { AreFree self.now from result }
        ensures marked { result < end → is_marked self.now result ≡ true }
    {
        let mut number = from;
        while number < end {
            match self.ahead(number) {
                Sight::Marked(found) => return if found < end { found } else { end },
                Sight::Free(next) => number = next,
            }
        }
        end
    }

    /// What is marked from a number on: of its page, or that none is in some pages.
    fn ahead(&self, number: usize) -> Sight
        requires { number < 134217728 }
        ensures { IsSight (is_marked self.now) number result }
    {
        let page = number / MANY;
        let entry = self.entries.get(page) as usize;
        if entry == 0 {
            return Sight::Free(self.entries.past(page) * MANY);
        }
        match place_of(&self.pages, entry, page) {
            None => entry_ahead(entry, number),
            Some(place) => bit_ahead(&self.pages[place], number),
        }
    }
}

/// The place of a page with this entry, if it is kept.
fn place_of(pages: &[Page], entry: usize, number: usize) -> Option<usize>
    ensures { MatchOption result ((n : ℕ) → n / 1024 ≡ number → has_in pages.now entry n ≡ eqb entry (n % 1024 + 1)) (λ place. IsPlaced pages.now entry number place) }
{
    if entry <= MANY {
        return None;
    }
    let place = entry - (MANY + 1);
    if place >= pages.len() {
        return None;
    }
    if pages[place].number == number {
        Some(place)
    } else {
        None
    }
}
