//! What each integer instruction does in guest code: the bytes of its operands, its opcode, and the
//! number that it leaves. The operands tell it from its neighbours. Each number was worked out from
//! the standard.

use crate::rows::assert_row;
use crate::runs::Outcome::{Leaves, Returns, Spends, Traps};
use crate::runs::{Runs, comes_to, runs_so};
use crate::spelled::{HEADER, Refused, append, spell_each};
use std::alloc::Global;
use wasm_syntax::Trap::{
    DivideByZero, IndirectCallTypeMismatch, IntegerOverflow, MemoryOutOfBounds, StackExhausted,
    UndefinedElement, UninitializedElement, Unreachable,
};

/// Name, opcode, and the number.
type Operation = (&'static str, u8, u64);

/// A module that applies an instruction to some operands and leaves at address 0 what it gives: the
/// types of its functions, what is in the code section up to the opcode, and what is after it. The
/// first function takes the operands, and the second one, `_start`, gives them. Then instructions.
type Shape = (
    &'static str,
    &'static str,
    &'static str,
    &'static [Operation],
);

/// What is between the types and the code section.
const PARTS: &str = "0303 02 01 00 0503 01 0001 0713 02 06'_start'0001 06'memory'0200";

#[rattlefmt::skip]
static SHAPES: [Shape; 15] = [
    // of 0x8765_4321 and 37
    ("010a 02 600000 60027f7f017f", "0a1b 02 07 00 2000 2001",
        "0b 11 00 4100 41a18695bb78 4125 1000 360000 0b", &[
        ("i32.add", 0x6a, 0x8765_4346), ("i32.sub", 0x6b, 0x8765_42fc),
        ("i32.mul", 0x6c, 0x91a2_b3c5), ("i32.div_s", 0x6d, 0xfcbd_8c32),
        ("i32.div_u", 0x6e, 0x3a8_ca76), ("i32.rem_s", 0x6f, 0xffff_ffe7),
        ("i32.rem_u", 0x70, 0x13), ("i32.and", 0x71, 0x21), ("i32.or", 0x72, 0x8765_4325),
        ("i32.xor", 0x73, 0x8765_4304), ("i32.shl", 0x74, 0xeca8_6420),
        ("i32.shr_s", 0x75, 0xfc3b_2a19), ("i32.shr_u", 0x76, 0x43b_2a19),
        ("i32.rotl", 0x77, 0xeca8_6430), ("i32.rotr", 0x78, 0xc3b_2a19),
    ]),
    // of 0x8765_4321_9abc_def1 and 66
    ("010a 02 600000 60027e7e017e", "0a21 02 07 00 2000 2001",
        "0b 17 00 4100 42f1bdf3d599e4d0b2877f 42c200 1000 370000 0b", &[
        ("i64.add", 0x7c, 0x8765_4321_9abc_df33), ("i64.sub", 0x7d, 0x8765_4321_9abc_deaf),
        ("i64.mul", 0x7e, 0xe81b_4ea9_e4b1_7a22), ("i64.div_s", 0x7f, 0xfe2c_3370_fe77_39af),
        ("i64.div_u", 0x80, 0x20d_2baf_0dfb_1aa6), ("i64.rem_s", 0x81, 0xffff_ffff_ffff_ffd3),
        ("i64.rem_u", 0x82, 0x25), ("i64.and", 0x83, 0x40), ("i64.or", 0x84, 0x8765_4321_9abc_def3),
        ("i64.xor", 0x85, 0x8765_4321_9abc_deb3), ("i64.shl", 0x86, 0x1d95_0c86_6af3_7bc4),
        ("i64.shr_s", 0x87, 0xe1d9_50c8_66af_37bc), ("i64.shr_u", 0x88, 0x21d9_50c8_66af_37bc),
        ("i64.rotl", 0x89, 0x1d95_0c86_6af3_7bc6), ("i64.rotr", 0x8a, 0x61d9_50c8_66af_37bc),
    ]),
    // of -1 and 1, 1 and 2, 1 and 1, and 2 and 1, a byte of the number each
    ("010a 02 600000 60027f7f017f", "0a38 02 07 00 2000 2001",
        "0b 2e 00 4100 417f 4101 1000 3a0000 4101 4101 4102 1000 3a0000 4102 4101 4101 1000 3a0000 \
         4103 4102 4101 1000 3a0000 0b", &[
        ("i32.eq", 0x46, 0x1_0000), ("i32.ne", 0x47, 0x100_0101), ("i32.lt_s", 0x48, 0x101),
        ("i32.lt_u", 0x49, 0x100), ("i32.gt_s", 0x4a, 0x100_0000), ("i32.gt_u", 0x4b, 0x100_0001),
        ("i32.le_s", 0x4c, 0x1_0101), ("i32.le_u", 0x4d, 0x1_0100), ("i32.ge_s", 0x4e, 0x101_0000),
        ("i32.ge_u", 0x4f, 0x101_0001),
    ]),
    // of -1 and 2 ^ 40, 2 ^ 40 and 2 ^ 41, 2 ^ 40 and itself, and 2 ^ 41 and 2 ^ 40, a byte of the
    // number each
    ("010a 02 600000 60027e7e017f", "0a5d 02 07 00 2000 2001",
        "0b 53 00 4100 427f 42808080808020 1000 3a0000 4101 42808080808020 428080808080c000 1000 \
         3a0000 4102 42808080808020 42808080808020 1000 3a0000 4103 428080808080c000 \
         42808080808020 1000 3a0000 0b", &[
        ("i64.eq", 0x51, 0x1_0000), ("i64.ne", 0x52, 0x100_0101), ("i64.lt_s", 0x53, 0x101),
        ("i64.lt_u", 0x54, 0x100), ("i64.gt_s", 0x55, 0x100_0000), ("i64.gt_u", 0x56, 0x100_0001),
        ("i64.le_s", 0x57, 0x1_0101), ("i64.le_u", 0x58, 0x1_0100), ("i64.ge_s", 0x59, 0x101_0000),
        ("i64.ge_u", 0x5a, 0x101_0001),
    ]),
    // of 0x00f0_0400 and 0, a byte of the number each
    ("0109 02 600000 60017f017f", "0a1f 02 05 00 2000",
        "0b 17 00 4100 418088c007 1000 3a0000 4101 4100 1000 3a0000 0b", &[
        ("i32.eqz", 0x45, 0x100), ("i32.clz", 0x67, 0x2008), ("i32.ctz", 0x68, 0x200a),
        ("i32.popcnt", 0x69, 5),
    ]),
    // of 0x0000_f000_0400_0000 and 0, a byte of the number each
    ("0109 02 600000 60017e017e", "0a22 02 05 00 2000",
        "0b 1a 00 4100 42808080a080803c 1000 3c0000 4101 4200 1000 3c0000 0b",
        &[("i64.clz", 0x79, 0x4010), ("i64.ctz", 0x7a, 0x401a), ("i64.popcnt", 0x7b, 5)]),
    // from 64 bits to 32, of 0x1122_3344_5566_7788 and 0, a half of the number each
    ("0109 02 600000 60017e017f", "0a24 02 05 00 2000",
        "0b 1c 00 4100 4288ef99abc5e88c9111 1000 360000 4104 4200 1000 360000 0b",
        &[("i64.eqz", 0x50, 0x1_0000_0000), ("i32.wrap_i64", 0xa7, 0x5566_7788)]),
    // from low bits of 32, of 0x0012_9881 and 0xffff_7f01, a half of the number each
    ("0109 02 600000 60017f017f", "0a21 02 05 00 2000",
        "0b 19 00 4100 4181b1ca00 1000 360000 4104 4181fe7d 1000 360000 0b",
        &[("i32.extend8_s", 0xc0, 0x1_ffff_ff81), ("i32.extend16_s", 0xc1, 0x7f01_ffff_9881)]),
    // from low bits of 64, of 0x0123_4567_8912_9881
    ("0109 02 600000 60017e017e", "0a1b 02 05 00 2000",
        "0b 13 00 4100 4281b1cac8f8acd19101 1000 370000 0b", &[
        ("i64.extend8_s", 0xc2, 0xffff_ffff_ffff_ff81),
        ("i64.extend16_s", 0xc3, 0xffff_ffff_ffff_9881),
        ("i64.extend32_s", 0xc4, 0xffff_ffff_8912_9881),
    ]),
    // the same of 0xffff_ffff_7f34_7f01, whose low bits are those of positive numbers
    ("0109 02 600000 60017e017e", "0a17 02 05 00 2000", "0b 0f 00 4100 4281fed1f977 1000 370000 0b",
        &[
            ("i64.extend8_s", 0xc2, 1), ("i64.extend16_s", 0xc3, 0x7f01),
            ("i64.extend32_s", 0xc4, 0x7f34_7f01),
        ]),
    // from 32 bits to 64, of 0x8000_0001
    ("0109 02 600000 60017f017e", "0a17 02 05 00 2000", "0b 0f 00 4100 418180808078 1000 370000 0b",
        &[
            ("i64.extend_i32_s", 0xac, 0xffff_ffff_8000_0001),
            ("i64.extend_i32_u", 0xad, 0x8000_0001),
        ]),
    // at address 11 and offset 5, where the bytes from 0x81 to 0x88 begin
    ("0109 02 600000 60017f017f", "0a15 02 07 00 2000",
        "0005 0b 0b 00 4100 410b 1000 360000 0b 0b0e 01 00 41100b 088182838485868788", &[
        ("i32.load", 0x28, 0x8483_8281), ("i32.load8_s", 0x2c, 0xffff_ff81),
        ("i32.load8_u", 0x2d, 0x81), ("i32.load16_s", 0x2e, 0xffff_8281),
        ("i32.load16_u", 0x2f, 0x8281),
    ]),
    // the same
    ("0109 02 600000 60017f017e", "0a15 02 07 00 2000",
        "0005 0b 0b 00 4100 410b 1000 370000 0b 0b0e 01 00 41100b 088182838485868788", &[
        ("i64.load", 0x29, 0x8887_8685_8483_8281), ("i64.load8_s", 0x30, 0xffff_ffff_ffff_ff81),
        ("i64.load8_u", 0x31, 0x81), ("i64.load16_s", 0x32, 0xffff_ffff_ffff_8281),
        ("i64.load16_u", 0x33, 0x8281), ("i64.load32_s", 0x34, 0xffff_ffff_8483_8281),
        ("i64.load32_u", 0x35, 0x8483_8281),
    ]),
    // of 0x1122_3344 at address 1 and offset 1, where the bytes from 0xf1 to 0xf8 begin at 0
    ("0109 02 600000 60027f7f00", "0a18 02 09 00 2000 2001",
        "0001 0b 0c 00 4101 41c4e6888901 1000 0b 0b0e 01 00 41000b 08f1f2f3f4f5f6f7f8", &[
        ("i32.store", 0x36, 0xf8f7_1122_3344_f2f1), ("i32.store8", 0x3a, 0xf8f7_f6f5_f444_f2f1),
        ("i32.store16", 0x3b, 0xf8f7_f6f5_3344_f2f1),
    ]),
    // the same of 0x1122_3344_5566_7788
    ("0109 02 600000 60027f7e00", "0a1c 02 09 00 2000 2001",
        "0001 0b 10 00 4101 4288ef99abc5e88c9111 1000 0b 0b0e 01 00 41000b 08f1f2f3f4f5f6f7f8", &[
        ("i64.store", 0x37, 0x3344_5566_7788_f2f1), ("i64.store8", 0x3c, 0xf8f7_f6f5_f488_f2f1),
        ("i64.store16", 0x3d, 0xf8f7_f6f5_7788_f2f1), ("i64.store32", 0x3e, 0xf8f7_5566_7788_f2f1),
    ]),
];

fn with_opcode(alloc: Global, shape: &Shape, opcode: u8) -> Result<Vec<u8>, Refused> {
    let mut bytes = spell_each(alloc, &[HEADER, shape.0, PARTS, shape.1])?;
    bytes.push(opcode)?;
    append(&mut bytes, shape.2)?;
    Ok(bytes)
}

fn is_given(alloc: Global, shape: &Shape, row: &Operation) -> Result<bool, Refused> {
    let bytes = with_opcode(alloc, shape, row.1)?;
    Ok(comes_to(alloc, bytes.as_slice(), &Leaves(row.2))?)
}

/// Two types, four functions, a table of four entries with functions 1, 0 and 2, a page of memory
/// of at most two, and a global that begins with 5.
const FRONT: &str = "0061736d01000000 010a 02 600000 60027f7f017f 0305 04 01 01 00 00 \
    0404 01 700004 0504 01 010102 0606 01 7f01 41050b \
    0713 02 06'_start'0003 06'memory'0200 0909 01 00 41000b 03010002";

/// The first functions of four: the first integer less the second, the second less the first, and
/// nothing.
const OTHERS: &str = "04 0700200020016b0b 0700200120006b0b 02000b";

/// Name, locals and body of `_start`, and what it comes to.
#[rattlefmt::skip]
static INSTRUCTIONS: Runs = (FRONT, OTHERS, "", &[
    ("nop", "00 01 4100 4101 360000 01 0b", Leaves(1)),
    ("block", "00 4100 027f 4107 0c00 0b 360000 0b", Leaves(7)),
    ("loop", "01017f 0340 2000 4101 6a 2200 4103 49 0d00 0b 4100 2000 360000 0b", Leaves(3)),
    ("if", "00 4100 4101 047f 4107 05 4109 0b 3a0000 4101 4100 047f 4107 05 4109 0b 3a0000 0b",
        Leaves(0x907)),
    ("br", "00 0240 0240 0c01 0b 4100 4107 360000 0b 4104 4109 360000 0b", Leaves(0x9_0000_0000)),
    ("br_if",
        "00 0240 4100 0d00 4100 4107 3a0000 0b 0240 4101 0d00 4101 4109 3a0000 0b 4102 4105 3a0000 \
         0b", Leaves(0x5_0007)),
    ("br_table",
        "00 0240 0240 0240 4100 0e02000102 0b 4100 4101 3a0000 0b 4101 4101 3a0000 0b 4102 4101 \
         3a0000 0b", Leaves(0x1_0101)),
    ("br_table",
        "00 0240 0240 0240 4101 0e02000102 0b 4100 4101 3a0000 0b 4101 4101 3a0000 0b 4102 4101 \
         3a0000 0b", Leaves(0x1_0100)),
    ("br_table",
        "00 0240 0240 0240 4102 0e02000102 0b 4100 4101 3a0000 0b 4101 4101 3a0000 0b 4102 4101 \
         3a0000 0b", Leaves(0x1_0000)),
    ("br_table",
        "00 0240 0240 0240 417f 0e02000102 0b 4100 4101 3a0000 0b 4101 4101 3a0000 0b 4102 4101 \
         3a0000 0b", Leaves(0x1_0000)),
    ("return", "00 4100 4107 3a0000 0240 0f 0b 4101 4109 3a0000 0b", Leaves(7)),
    ("call", "00 4100 4109 4104 1000 360000 0b", Leaves(5)),
    ("call_indirect", "00 4100 4109 4104 4100 110100 360000 4104 4109 4104 4101 110100 360000 0b",
        Leaves(0x5_ffff_fffb)),
    ("drop", "00 4100 4105 4106 1a 360000 0b", Leaves(5)),
    ("select", "00 4100 4107 4109 4101 1b 3a0000 4101 4107 4109 4100 1b 3a0000 0b", Leaves(0x907)),
    ("local.get", "01027f 4106 2101 4100 2001 3a0000 4101 2000 3a0000 0b", Leaves(6)),
    ("local.set", "01027f 4106 2100 4107 2101 4100 2000 3a0000 4101 2001 3a0000 0b", Leaves(0x706)),
    ("local.tee", "01027f 4100 4106 2201 3a0000 4101 2001 3a0000 0b", Leaves(0x606)),
    ("global.get", "00 4100 2300 360000 0b", Leaves(5)),
    ("global.set", "00 4108 2400 4100 2300 360000 0b", Leaves(8)),
    ("memory.size", "00 4100 3f00 360000 0b", Leaves(1)),
    ("memory.grow", "00 4100 4101 4000 3a0000 4101 3f00 3a0000 4102 4101 4000 3a0000 0b",
        Leaves(0xff_0201)),
    // the bytes from 1 up to 8, of which six go to another place, upward and downward
    ("memory.copy", "00 4100 4281848ca0d0c0c18308 370000 4102 4100 4106 fc0a0000 0b",
        Leaves(0x605_0403_0201_0201)),
    ("memory.copy", "00 4100 4281848ca0d0c0c18308 370000 4100 4102 4106 fc8a8080800000 00 0b",
        Leaves(0x807_0807_0605_0403)),
    ("memory.fill", "00 4100 4281848ca0d0c0c18308 370000 4102 41ff03 4103 fc0b00 0b",
        Leaves(0x807_06ff_ffff_0201)),
    // to and from the last byte, and nothing at the end
    ("memory.copy",
        "00 4100 4107 3a0000 41ffff03 4100 4101 fc0a0000 4104 41ffff03 4101 fc0a0000 0b",
        Leaves(0x7_0000_0007)),
    ("memory.fill", "00 41ffff03 4109 4101 fc0b00 4101 41ffff03 2d0000 3a0000 0b", Leaves(0x900)),
    ("memory.copy", "00 41808004 41808004 4100 fc0a0000 0b", Returns),
    ("memory.fill", "00 41808004 4101 4100 fc0b00 0b", Returns),
    ("i32.const", "00 4100 41ffffffff07 360000 0b", Leaves(0x7fff_ffff)),
    ("i32.const", "00 4100 418080808078 360000 0b", Leaves(0x8000_0000)),
    ("i64.const", "00 4100 428080808080808080807f 370000 0b", Leaves(0x8000_0000_0000_0000)),
    ("i64.const", "00 4100 42f0bdf3d589cf959a12 370000 0b", Leaves(0x1234_5678_9abc_def0)),
    ("unreachable", "00 00 0b", Traps(Unreachable)),
    ("i32.div_u", "00 4107 4100 6e 1a 0b", Traps(DivideByZero)),
    ("i64.rem_u", "00 4207 4200 82 1a 0b", Traps(DivideByZero)),
    ("i32.div_s", "00 418080808078 417f 6d 1a 0b", Traps(IntegerOverflow)),
    ("i64.div_s", "00 428080808080808080807f 427f 7f 1a 0b", Traps(IntegerOverflow)),
    ("i32.load", "00 417f 280000 1a 0b", Traps(MemoryOutOfBounds)),
    ("i32.load", "00 41fdff03 280000 1a 0b", Traps(MemoryOutOfBounds)),
    ("i32.store", "00 41fdff03 4100 360000 0b", Traps(MemoryOutOfBounds)),
    // nothing beyond the end, one byte too many, and sums that would wrap
    ("memory.copy", "00 41818004 4100 4100 fc0a0000 0b", Traps(MemoryOutOfBounds)),
    ("memory.copy", "00 4100 41818004 4100 fc0a0000 0b", Traps(MemoryOutOfBounds)),
    ("memory.copy", "00 41ffff03 4100 4102 fc0a0000 0b", Traps(MemoryOutOfBounds)),
    ("memory.copy", "00 417f 4100 4101 fc0a0000 0b", Traps(MemoryOutOfBounds)),
    ("memory.copy", "00 4100 4101 417f fc0a0000 0b", Traps(MemoryOutOfBounds)),
    ("memory.fill", "00 41818004 4101 4100 fc0b00 0b", Traps(MemoryOutOfBounds)),
    ("memory.fill", "00 41ffff03 4101 4102 fc0b00 0b", Traps(MemoryOutOfBounds)),
    ("memory.fill", "00 4101 4101 417f fc0b00 0b", Traps(MemoryOutOfBounds)),
    ("call_indirect", "00 4107 4107 4104 110100 1a 0b", Traps(UndefinedElement)),
    ("call_indirect", "00 4107 4107 4103 110100 1a 0b", Traps(UninitializedElement)),
    ("call_indirect", "00 4107 4107 4102 110100 1a 0b", Traps(IndirectCallTypeMismatch)),
    ("call", "00 1003 0b", Traps(StackExhausted)),
    ("end", "00 0b", Returns),
    ("loop", "00 0340 0c00 0b 0b", Spends),
    ("block", "00 0240 0c00 0b 0b", Returns),
]);

#[test]
fn instructions_do_what_the_standard_says(rt: HostRuntime) {
    for shape in &SHAPES {
        for row in shape.3 {
            assert_row(&rt, is_given(rt.alloc(), shape, row), row.0);
        }
    }
    for run in INSTRUCTIONS.3 {
        assert_row(&rt, runs_so(rt.alloc(), &INSTRUCTIONS, run), run.1);
    }
}
