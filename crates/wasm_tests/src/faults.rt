//! Faults are printed by their names.

use crate::rows::assert_row;
use guest_memory::MemoryFault;
use machine::LinkFault;
use std::alloc::{AllocError, Global};
use std::fmt::Display;
use wasm_decode::{DecodeFault, ModuleLimit, PassedLimit};
use wasm_validate::ValidFault;

/// A fault of one step, and of one of the decoder's its place.
enum Fault {
    Memory(MemoryFault),
    Decode(DecodeFault, Option<usize>),
    Valid(ValidFault),
    Link(LinkFault),
}

#[rattlefmt::skip]
static FAULTS: [(Fault, &str); 17] = [
    (Fault::Memory(MemoryFault::Memory), "M1 Memory"),
    (Fault::Decode(DecodeFault::Malformed(9), Some(9)), "B1 Malformed"),
    (Fault::Decode(DecodeFault::Float(50), Some(50)), "B2 Float"),
    (Fault::Decode(DecodeFault::Limit(PassedLimit { limit: ModuleLimit::Globals, at: 10 }), None),
        "B3 Limit"),
    (Fault::Decode(DecodeFault::Memory, None), "B4 Memory"),
    (Fault::Valid(ValidFault::Typing), "V1 Typing"),
    (Fault::Valid(ValidFault::Index), "V2 Index"),
    (Fault::Valid(ValidFault::Limits), "V3 Limits"),
    (Fault::Valid(ValidFault::DuplicateExport), "V4 DuplicateExport"),
    (Fault::Valid(ValidFault::Memory), "V5 Memory"),
    (Fault::Link(LinkFault::NoStart), "L1 NoStart"),
    (Fault::Link(LinkFault::NoMemory), "L2 NoMemory"),
    (Fault::Link(LinkFault::UnknownImport), "L3 UnknownImport"),
    (Fault::Link(LinkFault::ImportType), "L4 ImportType"),
    (Fault::Link(LinkFault::InitRange), "L5 InitRange"),
    (Fault::Link(LinkFault::TooManyPages), "L6 TooManyPages"),
    (Fault::Link(LinkFault::Memory), "L7 Memory"),
];

fn prints<T: Display>(alloc: Global, value: &T, text: &str) -> Result<bool, AllocError> {
    let told = format!(in alloc; "{value}")?;
    let is_so = told.as_str() == text;
    drop(told);
    Ok(is_so)
}

/// Whether it is printed as this text, and has its place.
fn is_printed_so(alloc: Global, fault: &Fault, text: &str) -> Result<bool, AllocError> {
    match fault {
        Fault::Memory(fault) => prints(alloc, fault, text),
        Fault::Decode(fault, place) if fault.place() == *place => prints(alloc, fault, text),
        Fault::Decode(_, _) => Ok(false),
        Fault::Valid(fault) => prints(alloc, fault, text),
        Fault::Link(fault) => prints(alloc, fault, text),
    }
}

/// `scripts/runs/refused-allocations` refuses each allocation in turn, and then this ends in that.
#[test]
fn are_printed_by_their_names(rt: HostRuntime) -> Result<(), AllocError> {
    for (fault, text) in &FAULTS {
        assert_row(&rt, Ok(is_printed_so(rt.alloc(), fault, text)?), text);
    }
    Ok(())
}
