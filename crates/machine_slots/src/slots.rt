//! The words of all frames.

ghost use Rattle.std.specs.Prelude.{◌≡◌, ◌+◌, ◌-◌, ◌<◌, ◌≤◌, ◌↔◌, ℕ, List, [], ◌∷◌, ◌++◌};
ghost use Rattle.std.specs.Prelude.{length, reverse, replicate, slice_get, slice_set, Some};
ghost use Rattle.std.specs.Prelude.{IfOk, IsTrue, drop};
ghost use Rattle.std.specs.Borrow.{sem};
ghost use Rattle.machine_slots.specs.Lends.{LendsWords};

use std::alloc::{AllocError, Global};
use std::marker::Model;

/// How many words there is room for. They are the locals and operands that a thread may hold, and
/// the operands of the running frame beside them. Its body's length bounds those.
pub const SLOTS: usize = 69_632;

/// Words, which contracts see as a list from the top down. All of their memory is taken at once.
#[derive(Debug, Drop)]
pub struct Slots {
    words: Vec<u64>,
    height: usize,
}

/// Zeros in all places. A few are put there one by one, since a fill of any length is a call.
#[inline(always)]
fn put_zeros(words: &mut [u64])
    ensures { words.new ≡ replicate (length words.old) 0 }
{
    let count = words.len();
    if count == 0 {
        return;
    }
    words[0] = 0;
    if count == 1 {
        return;
    }
    words[1] = 0;
    if count == 2 {
        return;
    }
    words[2] = 0;
    if count == 3 {
        return;
    }
    words[3] = 0;
    for place in 4..count {
        words[place] = 0;
    }
}

impl Model for Slots {
    ghost use Rattle.std.specs.Prelude.{List, ℕ, ◌≡◌, ◌≤◌, length, reverse, take};
    ghost use Rattle.machine_slots.specs.declared.slots.TheConstants.{SLOTS};

    ghost Value = { List ℕ };

    ghost view = { λ s. reverse (take s.height s.words.items) };

    ghost invariant = { λ s. (length s.words.items ≡ SLOTS) × (s.height ≤ SLOTS) };
}

impl Slots {
    /// No words yet. It fails only when out of memory.
    pub fn new(alloc: Global) -> Result<Slots, AllocError>
        ensures { IfOk result (λ s. s ≡ []) }
    {
        let words = vec![in alloc; 0u64; SLOTS]?;
        Ok(Slots { words, height: 0 })
    }

    #[inline(always)]
    pub fn len(&self) -> usize
        ensures len { result ≡ length self.now }
        ensures bound { result ≤ SLOTS }
    {
        self.height
    }

    #[inline(always)]
    pub fn is_empty(&self) -> bool
        ensures { IsTrue result ↔ (self.now ≡ []) }
    {
        self.height == 0
    }

    /// All words from the bottom up.
    pub fn as_slice(&self) -> &[u64]
        ensures { result.now ≡ reverse self.now }
    {
        &self.words[..self.height]
    }

    #[inline(always)]
    pub fn push(&mut self, word: u64)
        requires { length self.old < SLOTS }
        ensures { self.new ≡ word ∷ self.old }
    {
        self.words[self.height] = word;
        self.height += 1;
    }

    #[inline(always)]
    pub fn pop(&mut self) -> u64
        requires { 0 < length self.old }
        ensures last { self.old ≡ result ∷ self.new }
        ensures room { length self.new < SLOTS }
    {
        self.height -= 1;
        self.words[self.height]
    }

    /// The word on top.
    #[inline(always)]
    pub fn top(&self) -> u64
        requires { 0 < length self.now }
        ensures { slice_get self.now 0 ≡ Some result }
    {
        self.words[self.height - 1]
    }

    /// The word at a place, which counts from the bottom.
    #[inline(always)]
    pub fn get(&self, place: usize) -> u64
        requires { place < length self.now }
        ensures { slice_get (reverse self.now) place ≡ Some result }
    {
        self.words[place]
    }

    /// Puts a word at a place, which counts from the bottom.
    #[inline(always)]
    pub fn set(&mut self, place: usize, word: u64)
        requires { place < length self.old }
        ensures { self.new ≡ reverse (slice_set (reverse self.old) place word) }
    {
        self.words[place] = word;
    }

    /// Leaves this many words at the bottom, and none above.
    #[inline(always)]
    pub fn truncate(&mut self, height: usize)
        requires { height ≤ length self.old }
        ensures { (between under : List ℕ) → height ≡ length under → self.old ≡ between ++ under
            → self.new ≡ under }
    {
        self.height = height;
    }

    /// Leaves this many words at the bottom, and above them none but the words on top that are
    /// kept.
    #[inline(always)]
    pub fn fall(&mut self, keeps: usize, height: usize)
        requires few { keeps ≤ 1 }
        requires room { keeps + height ≤ length self.old }
        ensures { (kept between under : List ℕ) → keeps ≡ length kept → height ≡ length under
            → self.old ≡ kept ++ (between ++ under) → self.new ≡ kept ++ under }
    {
        if keeps == 0 {
            self.height = height;
        } else {
            let kept = self.words[self.height - 1];
            self.words[height] = kept;
            self.height = height + 1;
        }
    }

    /// Shows more words on top, whatever they are, up to this height.
    #[inline(always)]
    pub fn raise_to(&mut self, height: usize)
        requires more { length self.old ≤ height }
        requires room { height ≤ SLOTS }
        ensures { (more : List ℕ) × (length more + length self.old ≡ height)
            × (self.new ≡ more ++ self.old) }
    {
        self.height = height;
    }

    /// Lends all words from a place on, which counts from the bottom.
    #[inline(always)]
    pub fn from_mut(&mut self, place: usize) -> &mut [u64]
        requires { place ≤ length self.old }
        ensures* writes_back { sem 𝓛 (LendsWords self.entry place result) }
        ensures words { result.now ≡ drop place (reverse self.old) }
    {
        self.words.slice_mut(place..self.height)
    }

    /// Leaves so many words at the bottom, and zeros above them, up to this height.
    #[inline(always)]
    pub fn cover(&mut self, under: usize, height: usize)
        requires few { under ≤ length self.old }
        requires more { under ≤ height }
        requires room { height ≤ SLOTS }
        ensures { (between kept : List ℕ) → under ≡ length kept → self.old ≡ between ++ kept
            → self.new ≡ replicate (height - under) 0 ++ kept }
    {
        self.truncate(under);
        self.raise_to(height);
        put_zeros(self.from_mut(under));
    }

    /// Puts zeros on top.
    #[inline(always)]
    pub fn push_zeros(&mut self, count: usize)
        requires { count + length self.old ≤ SLOTS }
        ensures { self.new ≡ replicate count 0 ++ self.old }
    {
        for _ in 0..count {
            self.push(0);
        }
    }
}
