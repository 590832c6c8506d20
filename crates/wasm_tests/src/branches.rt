//! Where jumps of small bodies lead, derived from the standard. A branch to the label of a block or
//! an `if` goes on after its `end`. One to that of a loop goes on at the loop, and one to the
//! function's own after the last `end`. A branch keeps what the label takes, above the operands
//! that were below the block.

ghost use Rattle.std.specs.Prelude.{IfOk};
ghost use Rattle.machine_jumps.specs.Contexts.{GivesOnes};

use crate::rows::assert_row;
use crate::spelled::{Refused, with_code};
use machine::read;
use machine_jumps::{BranchTable, Jump, branch_table};
use std::alloc::Global;
use wasm_validate::{ModuleContext, ValidFault, ValidModule};

/// What the bodies of a valid module look up.
pub fn context_of(alloc: Global, valid: &ValidModule) -> Result<ModuleContext<'_>, ValidFault>
    ensures { IfOk result GivesOnes }
{
    ModuleContext::of(alloc, valid.module())
}

/// The table of the first function, which has the first type.
pub fn first_table(alloc: Global, valid: &ValidModule) -> Result<BranchTable, Refused> {
    let Some(function_type) = valid.module().types.get(0) else {
        return Err(Refused::Misspelled);
    };
    let Some(function) = valid.module().functions.get(0) else {
        return Err(Refused::Misspelled);
    };
    if function_type.results.len() > 1 || function.code.body.len() > 100 {
        return Err(Refused::Misspelled);
    }
    let context = context_of(alloc, valid)?;
    let table = branch_table(alloc, &context, function_type, &function.code);
    drop(context);
    Ok(table?)
}

fn table_of(alloc: Global, bytes: &[u8]) -> Result<BranchTable, Refused> {
    let valid = read(alloc, bytes)?;
    let table = first_table(alloc, &valid);
    drop(valid);
    table
}

/// A function from nothing to nothing.
const NOTHING: &str = "0061736d01000000 010401600000 03020100";

/// A function from nothing to one integer.
const ONE: &str = "0061736d01000000 0105016000017f 03020100";

/// A function from one integer to one.
const ONE_TO_ONE: &str = "0061736d01000000 01060160017f017f 03020100";

/// What is before the code section, a function's locals and body, the position of an opcode in it,
/// the number of a jump of that opcode, and that jump.
type Row = (&'static str, &'static str, usize, usize, Option<Jump>);

#[rattlefmt::skip]
static JUMPS: [Row; 25] = [
    // out of a block, also with its value above another one, and out of a loop within it
    (NOTHING, "00 0240 01 0c00 0b 0b", 2, 0, Some(Jump { to: 4, keeps: 0, height: 0 })),
    (NOTHING, "00 4100 027f 4100 4100 0c00 0b 1a 1a 0b", 4, 0,
        Some(Jump { to: 6, keeps: 1, height: 1 })),
    (NOTHING, "00 4100 027f 4100 0340 4100 0c01 0b 0b 1a 1a 0b", 5, 0,
        Some(Jump { to: 8, keeps: 1, height: 1 })),
    // to the begin of a loop
    (NOTHING, "00 4100 0340 4100 0d00 0b 1a 0b", 3, 0, Some(Jump { to: 1, keeps: 0, height: 1 })),
    (NOTHING, "00 4100 037f 4100 4100 0d00 0b 1a 1a 0b", 4, 0,
        Some(Jump { to: 1, keeps: 0, height: 1 })),
    // to a loop, after a block and after the function: each label of a table, and its default
    (NOTHING, "00 4100 0240 4100 0340 4100 0e02000102 0b 1a 0b 1a 0b", 5, 0,
        Some(Jump { to: 3, keeps: 0, height: 2 })),
    (NOTHING, "00 4100 0240 4100 0340 4100 0e02000102 0b 1a 0b 1a 0b", 5, 1,
        Some(Jump { to: 9, keeps: 0, height: 1 })),
    (NOTHING, "00 4100 0240 4100 0340 4100 0e02000102 0b 1a 0b 1a 0b", 5, 2,
        Some(Jump { to: 11, keeps: 0, height: 0 })),
    // where the condition is zero an `if` goes on after its `else`, or after its `end`; an `else`
    // goes on after the `end`
    (NOTHING, "00 4100 4100 0440 01 0b 1a 0b", 2, 0, Some(Jump { to: 5, keeps: 0, height: 1 })),
    (NOTHING, "00 4100 4100 047f 4100 05 4100 0b 1a 1a 0b", 2, 0,
        Some(Jump { to: 5, keeps: 0, height: 1 })),
    (NOTHING, "00 4100 4100 047f 4100 05 4100 0b 1a 1a 0b", 4, 0,
        Some(Jump { to: 7, keeps: 1, height: 1 })),
    (NOTHING, "00 4100 0440 0c00 05 01 0b 0b", 1, 0, Some(Jump { to: 4, keeps: 0, height: 0 })),
    (NOTHING, "00 4100 0440 0c00 05 01 0b 0b", 2, 0, Some(Jump { to: 6, keeps: 0, height: 0 })),
    // an `if` within the first part of another
    (NOTHING, "00 4100 0440 4100 0440 01 0b 05 01 0b 0b", 1, 0,
        Some(Jump { to: 7, keeps: 0, height: 0 })),
    (NOTHING, "00 4100 0440 4100 0440 01 0b 05 01 0b 0b", 3, 0,
        Some(Jump { to: 6, keeps: 0, height: 0 })),
    (NOTHING, "00 4100 0440 4100 0440 01 0b 05 01 0b 0b", 6, 0,
        Some(Jump { to: 9, keeps: 0, height: 0 })),
    // around a `return`
    (NOTHING, "00 4100 0440 0f 0b 0240 0c00 0b 0b", 1, 0,
        Some(Jump { to: 4, keeps: 0, height: 0 })),
    (NOTHING, "00 4100 0440 0f 0b 0240 0c00 0b 0b", 5, 0,
        Some(Jump { to: 7, keeps: 0, height: 0 })),
    // a branch to the function's own label returns its result
    (ONE, "00 4100 4100 0c00 0b", 2, 0, Some(Jump { to: 4, keeps: 1, height: 0 })),
    (ONE, "00 027f 4100 4100 0d01 0b 0b", 3, 0, Some(Jump { to: 6, keeps: 1, height: 0 })),
    (ONE, "00 4100 4100 0440 4100 0f 0b 0b", 2, 0, Some(Jump { to: 6, keeps: 0, height: 1 })),
    // gives the first local where that isn't zero, and else the second
    (ONE_TO_ONE, "01017f 2000 0440 2000 0f 0b 2001 0b", 1, 0,
        Some(Jump { to: 5, keeps: 0, height: 0 })),
    // an `end` has none, where none is after it; nor has what follows the last one
    (NOTHING, "00 0240 0c00 0b 0b", 1, 0, Some(Jump { to: 3, keeps: 0, height: 0 })),
    (NOTHING, "00 0240 0c00 0b 0b", 2, 0, None),
    (NOTHING, "00 0240 0c00 0b 0b", 4, 0, None),
];

fn leads_so(alloc: Global, row: &Row) -> Result<bool, Refused> {
    let bytes = with_code(alloc, row.0, "01", row.1, "")?;
    let table = table_of(alloc, bytes.as_slice());
    drop(bytes);
    let table = table?;
    let jump = table.jump(row.2, row.3);
    drop(table);
    Ok(jump == row.4)
}

/// `scripts/runs/refused-allocations` refuses each allocation in turn, and then this ends out of
/// memory.
#[test]
fn jumps_lead_where_the_standard_says(rt: HostRuntime) -> Result<(), Refused> {
    for row in &JUMPS {
        assert_row(&rt, Ok(leads_so(rt.alloc(), row)?), row.1);
    }
    Ok(())
}
