//! The answer of a call of the host.

ghost use Rattle.std.specs.Prelude.{◌≡◌, ◌<◌, ◌≤◌, ◌++◌, ℕ, List, length, map};
ghost use Rattle.wasm_rules.specs.Types.{number_in};
ghost use Rattle.machine.specs.rules.Answers.{IsAnswered, IsWaiting, call_results};

use crate::execution::{Executable, State, words_taken};
use machine_slots::{SLOTS, Slots};

/// Puts what a call gives in the place of the words that it took.
fn replace(slots: &mut Slots, taken: usize, given: Option<u32>)
    requires enough { taken ≤ length slots.old }
    requires room { length slots.old < SLOTS }
    ensures { (gone under : List ℕ) → taken ≡ length gone → slots.old ≡ gone ++ under
        → slots.new ≡ map number_in (call_results given) ++ under }
{
    slots.truncate(slots.len() - taken);
    if let Some(number) = given {
        slots.push(u64::from(number));
    }
}

/// Answers the call of the host that waits, and goes on after it. If the call gives a result, that
/// is put in the place of what the call took. Takes no memory.
pub fn answer(code: &Executable, state: &mut State, given: Option<u32>)
    requires { IsWaiting (call_results given) code.now state.old }
    ensures { IsAnswered (call_results given) code.now state.old state.new }
{
    let taken = words_taken(code, state);
    replace(&mut state.slots, taken, given);
    let frame = state.frames.top();
    state.frames.set_position(frame.position + 1);
}
