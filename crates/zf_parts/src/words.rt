//! Words by their numbers.
ghost use Rattle.std.specs.Prelude.{◌≡◌, ◌⊎◌, ◌+◌, ◌*◌, ◌<◌, ◌≤◌, ◌/◌, ◌%◌, ◌^◌, ℕ, length, MatchOption, IfOk, OnOk, slice_index_or};
ghost use Rattle.zf_parts.specs.{IsKept, word_at};

use crate::page::Page;
use std::alloc::{AllocError, Global};

/// A word for each number, 0 at first: in pages, of which only those that were written to are kept.
#[derive(Drop)]
pub struct Words {
    /// Where each page is, if it is kept.
    pub places: Vec<usize>,
    pub pages: Vec<Page>,
}

impl Words {
    /// All are 0.
    pub fn new(alloc: Global) -> Words
        ensures { (k : ℕ) → word_at result k ≡ 0 }
    {
        Words {
            places: Vec::new(alloc),
            pages: Vec::new(alloc),
        }
    }

    pub fn get(&self, word: usize) -> u64
        ensures { result ≡ word_at self.now word }
    {
        match self.place(word / 16) {
            None => 0,
            Some(place) => self.pages[place].words[word % 16],
        }
    }

    /// A number after this one, with none between them that has another word than 0.
    pub fn past(&self, word: usize) -> usize
        requires { word + 16 < 2 ^ 64 }
        ensures behind { (word < result) × (result ≤ word + 16) }
        ensures none { (k : ℕ) → word < k → k < result → word_at self.now k ≡ 0 }
    {
        match self.place(word / 16) {
            None => (word / 16 + 1) * 16,
            Some(place) => past_in(&self.pages[place], word),
        }
    }

    /// The place of a page, if it is kept.
    fn place(&self, page: usize) -> Option<usize>
        ensures { MatchOption result ((k : ℕ) → k / 16 ≡ page → word_at self.now k ≡ 0) (λ place. IsKept self.now.places.items self.now.pages.items page place) }
    {
        let place = place_in(&self.places, page);
        if place >= self.pages.len() {
            return None;
        }
        if self.pages[place].number == page {
            Some(place)
        } else {
            None
        }
    }

    /// Writes one word.
    pub fn put(&mut self, word: usize, bits: u64) -> Result<(), AllocError>
        ensures there { OnOk result (word_at self.new word ≡ bits) }
        ensures others { OnOk result ((k : ℕ) → (k ≡ word) ⊎ (word_at self.new k ≡ word_at self.old k)) }
    {
        let place = self.open(word / 16)?;
        let page = &mut self.pages[place];
        page.words[word % 16] = bits;
        Ok(())
    }

    /// The place of a page, which is made if it is not kept.
    fn open(&mut self, page: usize) -> Result<usize, AllocError>
        requires { page + 1 < 2 ^ 64 }
        ensures kept { IfOk result (IsKept self.new.places.items self.new.pages.items page) }
        ensures same { OnOk result ((k : ℕ) → word_at self.new k ≡ word_at self.old k) }
    {
        if let Some(place) = self.place(page) {
            return Ok(place);
        }
        self.reach(page)?;
        let last = self.pages.len();
        self.pages.push(Page {
            number: page,
            words: [0; 16],
        })?;
        self.places[page] = last;
        Ok(last)
    }

    /// Makes the places reach beyond a page.
    fn reach(&mut self, page: usize) -> Result<(), AllocError>
        requires { page + 1 < 2 ^ 64 }
        ensures there { OnOk result (page < length self.new.places.items) }
        ensures same { OnOk result ((k : ℕ) → slice_index_or self.new.places.items k 0 ≡ slice_index_or self.old.places.items k 0) }
        ensures pages { self.new.pages ≡ self.old.pages }
    {
        if page < self.places.len() {
            return Ok(());
        }
        self.places.resize(page + 1, 0)
    }
}

/// The next word of a page that is not 0, or the end of the page.
fn past_in(page: &Page, word: usize) -> usize
    requires { word + 16 < 2 ^ 64 }
    ensures behind { (word < result) × (result ≤ (word / 16 + 1) * 16) }
    ensures none { (k : ℕ) → word < k → k < result → slice_index_or page.now.words (k % 16) 0 ≡ 0 }
{
    let end = (word / 16 + 1) * 16;
    let mut next = word + 1;
    while next < end {
        if page.words[next % 16] != 0 {
            return next;
        }
        next += 1;
    }
    end
}

/// The place of a page that is listed, or the first one.
fn place_in(places: &[usize], page: usize) -> usize
    ensures { result ≡ slice_index_or places.now page 0 }
{
    if page < places.len() { places[page] } else { 0 }
}
