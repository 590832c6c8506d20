//! Expressions (section 5.4.6).

ghost use Rattle.std.specs.Prelude.{◌≡◌, IfOk, reverse};
ghost use Rattle.wasm_syntax.specs.laws.ReadingInstructions.{nesting_after};
ghost use Rattle.wasm_syntax.specs.laws.ReadingWithin.{expression_within_at};
ghost use Rattle.wasm_decode.specs.Items.Answers.{GivesItem};
ghost use Rattle.wasm_decode.specs.Items.Steps.{Nests};

use crate::items::decoder::Decoder;
use crate::items::fault::{ItemFault, ReadRefusal};
use crate::items::item::Item;
use crate::items::limit::ModuleLimit;
use crate::items::step::BodyStep;
use std::alloc::{AllocFailed, Global};
use wasm_syntax::limits::INSTRUCTIONS;
use wasm_syntax::{Instruction, ItemList, Opener};

/// Opens, turns or closes what the instruction does. The openers are outermost first.
fn nest(
    openers: &mut Vec<Opener>,
    instruction: &Instruction,
) -> Result<BodyStep, AllocFailed<Opener>>
    ensures { IfOk result (λ step. Nests step (reverse openers.new.items)
        (nesting_after instruction.now (reverse openers.old.items))) }
{
    match instruction {
        Instruction::Block { .. } | Instruction::Loop { .. } => openers.push(
            Opener::Unconditional,
        )?,
        Instruction::If { .. } => openers.push(Opener::Conditional)?,
        Instruction::Else => match openers.pop() {
            Some(Opener::Conditional) => openers.push(Opener::Unconditional)?,
            _ => return Ok(BodyStep::Misplaced),
        },
        Instruction::End => {
            if openers.pop().is_none() {
                return Ok(BodyStep::Closes);
            }
        }
        _ => {}
    }
    Ok(BodyStep::GoesOn)
}

/// Why no further instruction is read after the last that a limit allows.
fn past_last(decoder: &Decoder) -> ReadRefusal {
    if decoder.is_empty() {
        ReadRefusal::Malformed(decoder.at())
    } else {
        ReadRefusal::past(ModuleLimit::Instructions, decoder.at())
    }
}

/// Instructions up to the one that closes the expression, at most `INSTRUCTIONS`. An opcode past
/// them is over the limit whatever it is, while bytes that end there are malformed.
pub fn expression(alloc: Global, decoder: &mut Decoder) -> Result<ItemList<Instruction>, ItemFault>
    ensures { GivesItem result decoder.new (expression_within_at decoder.old) }
{
    let mut items = ItemList::new(alloc);
    let mut openers = Vec::new(alloc);
    for _ in 0..INSTRUCTIONS {
        let start = decoder.at();
        let instruction = Instruction::read(alloc, decoder)?;
        let step = nest(&mut openers, &instruction)?;
        items.push(instruction)?;
        match step {
            BodyStep::GoesOn => {}
            BodyStep::Closes => return Ok(items),
            BodyStep::Misplaced => return Err(ItemFault::Refused(ReadRefusal::Malformed(start))),
        }
    }
    Err(ItemFault::Refused(past_last(decoder)))
}
