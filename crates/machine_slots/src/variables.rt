//! Locals and globals (section 4.4.3).

ghost use Rattle.std.specs.Prelude.{◌≡◌, ◌+◌, ◌<◌, ℕ, List, ◌∷◌, length, reverse, slice_get};
ghost use Rattle.std.specs.Prelude.{slice_set, Some};

use crate::slots::{SLOTS, Slots};

/// The local at this place, which counts from the bottom, on top.
#[inline(always)]
pub fn local_get(slots: &mut Slots, place: usize)
    requires there { place < length slots.old }
    requires room { length slots.old < SLOTS }
    ensures { (word : ℕ) → slice_get (reverse slots.old) place ≡ Some word
        → slots.new ≡ word ∷ slots.old }
{
    let word = slots.get(place);
    slots.push(word);
}

/// The word on top is taken, and put into the local at this place.
#[inline(always)]
pub fn local_set(slots: &mut Slots, place: usize)
    requires { place + 1 < length slots.old }
    ensures { (word : ℕ) (under : List ℕ) → slots.old ≡ word ∷ under
        → slots.new ≡ reverse (slice_set (reverse under) place word) }
{
    let word = slots.pop();
    slots.set(place, word);
}

/// The word on top is put into the local at this place, and stays.
#[inline(always)]
pub fn local_tee(slots: &mut Slots, place: usize)
    requires { place + 1 < length slots.old }
    ensures { (word : ℕ) (under : List ℕ) → slots.old ≡ word ∷ under
        → slots.new ≡ word ∷ reverse (slice_set (reverse under) place word) }
{
    let word = slots.pop();
    slots.set(place, word);
    slots.push(word);
}

/// The global with this number, on top.
#[inline(always)]
pub fn global_get(slots: &mut Slots, globals: &[u64], global: u32)
    requires there { global < length globals.now }
    requires room { length slots.old < SLOTS }
    ensures { (word : ℕ) → slice_get globals.now global ≡ Some word → slots.new ≡ word ∷ slots.old }
{
    slots.push(globals[global as usize]);
}

/// The word on top is taken, and put into the global with this number.
#[inline(always)]
pub fn global_set(slots: &mut Slots, globals: &mut [u64], global: u32)
    requires there { global < length globals.old }
    requires some { 0 < length slots.old }
    ensures slots { (word : ℕ) (under : List ℕ) → slots.old ≡ word ∷ under → slots.new ≡ under }
    ensures globals { (word : ℕ) (under : List ℕ) → slots.old ≡ word ∷ under
        → globals.new ≡ slice_set globals.old global word }
{
    globals[global as usize] = slots.pop();
}
