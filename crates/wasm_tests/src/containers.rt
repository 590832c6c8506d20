//! Lists hold what is pushed, and slots hold words in one piece of memory.

use crate::rows::assert_row;
use machine_slots::Slots;
use std::alloc::{AllocError, Global};
use wasm_syntax::ItemList;

fn holds_two(list: &ItemList<u32>) -> bool {
    list.as_slice() == [3, 5].as_slice() && list.get(1) == Some(&5) && list.get(2).is_none()
}

/// Whether a list holds what is pushed, also once it was a vector.
fn is_pushed(alloc: Global) -> Result<bool, AllocError> {
    let mut list = ItemList::new(alloc);
    list.push(3)?;
    list.push(5)?;
    Ok(holds_two(&list) && holds_two(&ItemList::from_vec(list.into_vec())))
}

/// Whether zeros and a word are found where they are put, and nothing is there before.
fn are_words_held(alloc: Global) -> Result<bool, AllocError> {
    let mut slots = Slots::new(alloc)?;
    let was_empty = slots.is_empty();
    slots.push_zeros(2);
    slots.push(7);
    Ok(was_empty && slots.as_slice() == [0, 0, 7].as_slice())
}

/// `scripts/runs/refused-allocations` refuses each allocation in turn, and then this ends in that.
#[test]
fn lists_and_slots_hold_what_is_pushed(rt: HostRuntime) -> Result<(), AllocError> {
    assert_row(&rt, Ok(is_pushed(rt.alloc())?), "a list");
    assert_row(&rt, Ok(are_words_held(rt.alloc())?), "slots");
    Ok(())
}
