//! What is known of the truths of one conjunct.
ghost use Rattle.std.specs.Prelude.{◌≡◌, ◌⊎◌, ◌+◌, ◌<◌, ◌≤◌, ◌^◌, ◌++◌, ◌∷◌, [], ℕ, drop, length, slice_index_or, IfSome, IsTrue};
ghost use Rattle.zf_walk.specs.declared.judge.Truth.{Truth};
ghost use Rattle.zf_walk.specs.{Fits, IsMarked, IsSeen, Keeps, known, number, unseen};

use crate::entry::Entry;
use crate::judge::Truth;
use crate::seen::Seen;

/// A component that a conjunct uses, and how many values it may have.
#[derive(Clone, Copy)]
pub struct Used {
    pub component: usize,
    pub count: usize,
}

/// The truths of a conjunct by the places of the values that it uses. These places are the digits of a number, that of the last component the lowest one, and the truth stands there. What lies after the end is not known.
#[derive(Drop)]
pub struct Table {
    pub used: Vec<Used>,
    pub entries: Vec<Entry>,
    /// How many values the last component may have, if these are few enough to be marked by bits; else 0.
    pub width: usize,
    /// For each number of the digits but the last the truths that are known with each last one.
    pub seen: Vec<Seen>,
}

impl Table {
    /// The truth on the row at these places, if it is known.
    pub fn find(&self, places: &[usize]) -> Option<Truth>
        requires { Fits places.now self.now }
        ensures { result ≡ known self.now places.now }
    {
        let number = self.number(places);
        if number < self.entries.len() {
            self.entries[number].truth()
        } else {
            None
        }
    }

    /// Keeps the truth on the row at these places, if there is room for it.
    pub fn keep(&mut self, places: &[usize], truth: Truth)
        requires { Fits places.now self.old }
        ensures { Keeps places.now truth self.old self.new }
    {
        let number = self.number(places);
        if reach(&mut self.entries, number, Entry::Unknown) {
            self.entries[number] = Entry::of(truth);
        }
        self.mark(number, truth);
    }

    /// Marks the truth on the rows with this number, if there is room for it.
    fn mark(&mut self, number: usize, truth: Truth)
        requires { number + 1 < 2 ^ 64 }
        ensures used { self.new.used.items ≡ self.old.used.items }
        ensures entries { self.new.entries.items ≡ self.old.entries.items }
        ensures marks { (n : ℕ) (t : Truth) → IsMarked self.new n t → IsMarked self.old n t ⊎ ((n ≡ number) × (t ≡ truth)) }
    {
        if self.width == 0 || self.width > 64 {
            return;
        }
        let front = number / self.width;
        let last = number % self.width;
        if reach(&mut self.seen, front, Seen::none()) {
            self.seen[front] = self.seen[front].with(last, truth);
        }
    }

    /// What is known on the rows that go on from these places with one more. It is nothing, unless this one is of the last component that is used.
    pub fn seen(&self, places: &[usize]) -> Seen
        requires { Fits (places.now ++ 0 ∷ []) self.now }
        ensures { (i : ℕ) (t : Truth) → Fits (places.now ++ i ∷ []) self.now → IsSeen result i t → IsMarked self.now (number 0 self.now.used.items (places.now ++ i ∷ [])) t }
    {
        let count = self.used.len();
        if count == 0 {
            return Seen::none();
        }
        let last = self.used[count - 1];
        if last.component != places.len() {
            return Seen::none();
        }
        if last.count != self.width {
            return Seen::none();
        }
        match self.front(places, count - 1) {
            None => Seen::none(),
            Some(front) => self.seen_at(front),
        }
    }

    /// The number whose digits are the places of so many first values that are used, if these places are among them.
    fn front(&self, places: &[usize], count: usize) -> Option<usize>
        requires fits { Fits (places.now ++ 0 ∷ []) self.now }
        requires count { count ≤ length self.now.used.items }
        ensures { IfSome result (λ front. (i : ℕ) → number front (drop count self.now.used.items) (places.now ++ i ∷ []) ≡ number 0 self.now.used.items (places.now ++ i ∷ [])) }
    {
        let mut number = 0;
        for i in 0..count {
            let used = self.used[i];
            if used.component >= places.len() {
                return None;
            }
            number = number * used.count + places[used.component];
        }
        Some(number)
    }

    /// What is known with each last digit after the others.
    fn seen_at(&self, front: usize) -> Seen
        ensures { result ≡ slice_index_or self.now.seen.items front unseen }
    {
        if front < self.seen.len() {
            self.seen[front]
        } else {
            Seen::none()
        }
    }

    /// The number whose digits are the places of the values that are used.
    fn number(&self, places: &[usize]) -> usize
        requires { Fits places.now self.now }
        ensures value { result ≡ number 0 self.now.used.items places.now }
        ensures small { result + 1 < 2 ^ 64 }
    {
        let mut number = 0;
        for used in self.used.as_slice() {
            number = number * used.count + places[used.component];
        }
        number
    }
}

/// Makes a list reach beyond a number, with nothing known in what is new, if there is room for it.
fn reach<T: Copy>(list: &mut Vec<T>, number: usize, nothing: T) -> bool
    requires { number + 1 < 2 ^ 64 }
    ensures same { (k : ℕ) → slice_index_or list.new.items k nothing ≡ slice_index_or list.old.items k nothing }
    ensures there { IsTrue result → number < length list.new.items }
{
    if number < list.len() {
        return true;
    }
    list.resize(number + 1, nothing).is_ok()
}
