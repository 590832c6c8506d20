//! Instructions (sections 5.4.1 to 5.4.5).

ghost use Rattle.std.specs.Prelude.{◌≡◌};
ghost use Rattle.wasm_syntax.specs.laws.ReadingItems.{block_type_at};
ghost use Rattle.wasm_syntax.specs.laws.ReadingInstructions.{control_at, variable_at, memory_at};
ghost use Rattle.wasm_syntax.specs.laws.ReadingInstructions.{memory_argument_at, numeric_at};
ghost use Rattle.wasm_syntax.specs.laws.ReadingInstructions.{instruction_at, behind_opcode};
ghost use Rattle.wasm_syntax.specs.laws.ReadingInstructions.{prefixed_at, higher_at};
ghost use Rattle.wasm_decode.specs.Items.Answers.{GivesItem, TakesItem};

use crate::items::decoder::Decoder;
use crate::items::fault::{ItemFault, ReadRefusal};
use crate::items::item::Item;
use crate::items::operators::{comparison, load_operator, operation, store_operator};
use crate::items::vectors::vector;
use std::alloc::Global;
use wasm_syntax::{Instruction, MemoryArgument, Value, ValueType};

/// Why an opcode at this offset stands for no instruction.
fn no_instruction(opcode: u8, start: usize) -> ReadRefusal {
    match opcode {
        0x2a | 0x2b | 0x38 | 0x39 | 0x43 | 0x44 => ReadRefusal::Float(start),
        0x5b..=0x66 | 0x8b..=0xa6 | 0xa8..=0xab | 0xae..=0xbf => ReadRefusal::Float(start),
        _ => ReadRefusal::Malformed(start),
    }
}

/// The type of a block: none, or one value.
fn block_type(decoder: &mut Decoder) -> Result<Option<ValueType>, ReadRefusal>
    ensures { TakesItem result decoder.new (block_type_at decoder.old) }
{
    let start = decoder.at();
    match decoder.byte() {
        Some(0x40) => Ok(None),
        Some(0x7f) => Ok(Some(ValueType::I32)),
        Some(0x7e) => Ok(Some(ValueType::I64)),
        Some(0x7c | 0x7d) => Err(ReadRefusal::Float(start)),
        _ => Err(ReadRefusal::Malformed(start)),
    }
}

/// Blocks, branches and calls: opcodes below 0x1a.
fn control(
    alloc: Global,
    decoder: &mut Decoder,
    opcode: u8,
    start: usize,
) -> Result<Instruction, ItemFault>
    ensures { GivesItem result decoder.new (control_at opcode decoder.old) }
{
    match opcode {
        0x00 => Ok(Instruction::Unreachable),
        0x01 => Ok(Instruction::Nop),
        0x02 => Ok(Instruction::Block {
            block_type: block_type(decoder)?,
        }),
        0x03 => Ok(Instruction::Loop {
            block_type: block_type(decoder)?,
        }),
        0x04 => Ok(Instruction::If {
            block_type: block_type(decoder)?,
        }),
        0x05 => Ok(Instruction::Else),
        0x0b => Ok(Instruction::End),
        0x0c => Ok(Instruction::Br {
            label: decoder.u32()?,
        }),
        0x0d => Ok(Instruction::BrIf {
            label: decoder.u32()?,
        }),
        0x0e => {
            let labels = vector(alloc, decoder)?;
            let default = decoder.u32()?;
            Ok(Instruction::BrTable { labels, default })
        }
        0x0f => Ok(Instruction::Return),
        0x10 => Ok(Instruction::Call {
            function: decoder.u32()?,
        }),
        0x11 => {
            let function_type = decoder.u32()?;
            decoder.expect_byte(0x00)?;
            Ok(Instruction::CallIndirect { function_type })
        }
        _ => Err(ItemFault::Refused(no_instruction(opcode, start))),
    }
}

/// Operands, locals and globals: opcodes from 0x1a to 0x27.
fn variable(decoder: &mut Decoder, opcode: u8, start: usize) -> Result<Instruction, ReadRefusal>
    ensures { TakesItem result decoder.new (variable_at opcode decoder.old) }
{
    match opcode {
        0x1a => Ok(Instruction::Drop),
        0x1b => Ok(Instruction::Select),
        0x20 => Ok(Instruction::LocalGet {
            local: decoder.u32()?,
        }),
        0x21 => Ok(Instruction::LocalSet {
            local: decoder.u32()?,
        }),
        0x22 => Ok(Instruction::LocalTee {
            local: decoder.u32()?,
        }),
        0x23 => Ok(Instruction::GlobalGet {
            global: decoder.u32()?,
        }),
        0x24 => Ok(Instruction::GlobalSet {
            global: decoder.u32()?,
        }),
        _ => Err(no_instruction(opcode, start)),
    }
}

/// The alignment and the offset of a load or a store.
#[tactic(auto, unfolding(wasm_syntax::specs::laws::ReadingInstructions::memory_argument_at))]
fn memory_argument(decoder: &mut Decoder) -> Result<MemoryArgument, ReadRefusal>
    ensures { TakesItem result decoder.new (memory_argument_at decoder.old) }
{
    let align = decoder.u32()?;
    let offset = decoder.u32()?;
    Ok(MemoryArgument { align, offset })
}

/// Loads, stores and the memory's size: opcodes from 0x28 to 0x40.
fn memory(decoder: &mut Decoder, opcode: u8, start: usize) -> Result<Instruction, ReadRefusal>
    ensures { TakesItem result decoder.new (memory_at opcode decoder.old) }
{
    if opcode == 0x3f {
        decoder.expect_byte(0x00)?;
        return Ok(Instruction::MemorySize);
    }
    if opcode == 0x40 {
        decoder.expect_byte(0x00)?;
        return Ok(Instruction::MemoryGrow);
    }
    if opcode < 0x36 {
        let Some(operator) = load_operator(opcode) else {
            return Err(no_instruction(opcode, start));
        };
        let argument = memory_argument(decoder)?;
        return Ok(Instruction::Load { operator, argument });
    }
    let Some(operator) = store_operator(opcode) else {
        return Err(no_instruction(opcode, start));
    };
    let argument = memory_argument(decoder)?;
    Ok(Instruction::Store { operator, argument })
}

/// Constants, tests, comparisons, operators and conversions: opcodes from 0x41 on, but the prefix.
fn numeric(decoder: &mut Decoder, opcode: u8, start: usize) -> Result<Instruction, ReadRefusal>
    ensures { TakesItem result decoder.new (numeric_at opcode decoder.old) }
{
    if opcode == 0x41 {
        return Ok(Instruction::Const {
            value: Value::I32(decoder.s32()?),
        });
    }
    if opcode == 0x42 {
        return Ok(Instruction::Const {
            value: Value::I64(decoder.s64()?),
        });
    }
    let instruction = if opcode < 0x67 {
        comparison(opcode)
    } else {
        operation(opcode)
    };
    match instruction {
        Some(instruction) => Ok(instruction),
        None => Err(no_instruction(opcode, start)),
    }
}

/// Copies and fills of memory: the number after the prefix 0xfc, and then zero bytes.
#[tactic(auto, unfolding(wasm_syntax::specs::laws::ReadingInstructions::prefixed_at))]
fn prefixed(decoder: &mut Decoder) -> Result<Instruction, ReadRefusal>
    ensures { TakesItem result decoder.new (prefixed_at decoder.old) }
{
    let start = decoder.at();
    match decoder.u32()? {
        10 => {
            decoder.expect_byte(0x00)?;
            decoder.expect_byte(0x00)?;
            Ok(Instruction::MemoryCopy)
        }
        11 => {
            decoder.expect_byte(0x00)?;
            Ok(Instruction::MemoryFill)
        }
        _ => Err(ReadRefusal::Malformed(start)),
    }
}

/// Opcodes from 0x41 on.
#[tactic(auto, unfolding(wasm_syntax::specs::laws::ReadingInstructions::higher_at))]
fn higher(decoder: &mut Decoder, opcode: u8, start: usize) -> Result<Instruction, ReadRefusal>
    ensures { TakesItem result decoder.new (higher_at opcode decoder.old) }
{
    if opcode == 0xfc {
        return prefixed(decoder);
    }
    numeric(decoder, opcode, start)
}

/// What is after an opcode that was read at `start`.
#[tactic(auto, unfolding(wasm_syntax::specs::laws::ReadingInstructions::behind_opcode))]
fn finish_instruction(
    alloc: Global,
    decoder: &mut Decoder,
    opcode: u8,
    start: usize,
) -> Result<Instruction, ItemFault>
    ensures { GivesItem result decoder.new (behind_opcode opcode decoder.old) }
{
    if opcode < 0x1a {
        return control(alloc, decoder, opcode, start);
    }
    if opcode < 0x28 {
        return Ok(variable(decoder, opcode, start)?);
    }
    if opcode < 0x41 {
        return Ok(memory(decoder, opcode, start)?);
    }
    Ok(higher(decoder, opcode, start)?)
}

impl Item for Instruction {
    ghost at = { instruction_at };

    #[tactic(auto, unfolding(wasm_syntax::specs::laws::ReadingInstructions::instruction_at))]
    fn read(alloc: Global, decoder: &mut Decoder) -> Result<Instruction, ItemFault> {
        let start = decoder.at();
        let Some(opcode) = decoder.byte() else {
            return Err(ItemFault::Refused(ReadRefusal::Malformed(start)));
        };
        finish_instruction(alloc, decoder, opcode, start)
    }
}
