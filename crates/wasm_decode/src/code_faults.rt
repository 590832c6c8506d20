//! The faults of code entries (section 5.5.13), each entry judged by its own bytes.

ghost use Rattle.std.specs.Prelude.{◌≡◌, []};
ghost use Rattle.wasm_decode.specs.Parts.{Collects, JudgesEntry};
ghost use Rattle.wasm_decode.specs.rules.Parts.{AreFaultsOf};

use crate::fault::DecodeFault;
use crate::items::{Decoder, ItemFault, take_sized, whole_code};
use std::alloc::Global;
use wasm_syntax::ItemList;

/// Why a code entry is no code within the limits.
#[derive(Clone, Copy, Debug, PartialEq, Eq)]
pub struct CodeFault {
    /// The number of the entry, from 0 on. Imported functions have none.
    pub number: u32,
    /// The first fault in the entry: any but `DecodeFault::Memory`.
    pub why: DecodeFault,
}

/// What is at fault in the code entries of a module.
#[derive(Debug, Drop)]
pub struct CodeFaults {
    /// Of each entry that is at fault, in their order.
    pub faults: ItemList<CodeFault>,
    /// Why not all entries were read, if they weren't: the section itself is at fault, or memory
    /// ran out.
    pub end: Option<DecodeFault>,
}

/// Keeps why the bytes of the entry with this number are no code, if they are none.
fn judge(
    alloc: Global,
    number: u32,
    entry: Decoder,
    faults: &mut ItemList<CodeFault>,
) -> Result<(), ItemFault>
    ensures { JudgesEntry number entry.entry faults.old faults.new result }
{
    match whole_code(alloc, entry) {
        Ok(code) => {
            drop(code);
            Ok(())
        }
        Err(ItemFault::Refused(refusal)) => {
            let why = DecodeFault::from(ItemFault::Refused(refusal));
            faults.push(CodeFault { number, why })?;
            Ok(())
        }
        Err(ItemFault::Memory) => Err(ItemFault::Memory),
    }
}

/// Collects the faults of so many entries that are all of the bytes. Where an entry's size can't be
/// read, those of the entries before it.
fn collect_faults(
    alloc: Global,
    decoder: &mut Decoder,
    count: u32,
    faults: &mut ItemList<CodeFault>,
) -> Result<(), ItemFault>
    requires { faults.old ≡ [] }
    ensures { Collects count decoder.old faults.new result }
{
    for number in 0..count {
        let entry = take_sized(decoder)?;
        judge(alloc, number, entry, faults)?;
    }
    decoder.expect_end()?;
    Ok(())
}

/// The faults of so many entries that are all of the bytes.
pub fn faults_of(alloc: Global, decoder: &mut Decoder, count: u32) -> CodeFaults
    ensures { AreFaultsOf count decoder.old result }
{
    let mut faults = ItemList::new(alloc);
    match collect_faults(alloc, decoder, count, &mut faults) {
        Ok(()) => CodeFaults { faults, end: None },
        Err(fault) => CodeFaults {
            faults,
            end: Some(DecodeFault::from(fault)),
        },
    }
}
