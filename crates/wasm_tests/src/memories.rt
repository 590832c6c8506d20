//! Edges of ranges, growth up to the limit and past it, and out of memory.

use crate::rows::assert_number;
use guest_memory::{Memory, MemoryFault};
use std::alloc::Global;

/// A call of memory, and what is seen of it.
enum Call {
    /// An address, an offset, and whether a byte and four bytes can be read there.
    Read(u32, u32, bool, bool),
    /// Where a range begins, its length, and whether it is within memory.
    Range(u32, u32, bool),
    /// An address, and whether four bytes can be stored there.
    Store(u32, bool),
    /// Where two bytes are written, and whether that is within memory.
    Write(u32, bool),
    /// By how many pages memory is to grow, and how many there were, where it does.
    Grow(u32, Option<u32>),
    /// Eight bytes are stored at the end, and their parts are read.
    StoreEight,
    /// Two bytes are stored at the end, and then the last one.
    StoreTwo,
    /// Two bytes near the end are lent, and written.
    Lend,
    /// 7 is stored in the last byte of the first page.
    StoreSeven,
    /// There are three pages, of which the first one is as it was. Behind it are zeros.
    HasThreePages,
    /// The last bytes.
    EndsWith(&'static [u8]),
}

/// How many pages memory begins with and may have, its length then, and calls one after another.
type Story = (u32, u32, usize, &'static [Call]);

#[rattlefmt::skip]
static STORIES: [Story; 11] = [
    (0, 0, 0, &[]),
    (0, 256, 0, &[]),
    (1, 1, 65_536, &[]),
    (2, 3, 131_072, &[]),
    (1, 3, 65_536, &[
        Call::Read(0, 0, true, true), Call::Read(65_532, 0, true, true),
        Call::Read(65_533, 0, true, false), Call::Read(65_535, 0, true, false),
        Call::Read(65_535, 1, false, false), Call::Read(0, 65_532, true, true),
        Call::Read(1, 65_532, true, false), Call::Read(4_294_967_295, 1, false, false),
        Call::Read(4_294_967_295, 4_294_967_295, false, false),
        Call::Read(1, 4_294_967_295, false, false),
    ]),
    (1, 3, 65_536, &[
        Call::Range(0, 65_536, true), Call::Range(1, 65_535, true), Call::Range(65_536, 0, true),
        Call::Range(65_536, 1, false), Call::Range(65_537, 0, false),
        Call::Range(4_294_967_295, 1, false), Call::Range(4_294_967_295, 4_294_967_295, false),
        Call::Range(1, 4_294_967_295, false),
    ]),
    (1, 3, 65_536, &[Call::StoreEight]),
    (1, 3, 65_536, &[
        Call::Store(65_532, true), Call::Store(65_533, false), Call::Store(4_294_967_295, false),
        Call::StoreTwo, Call::EndsWith(b"\0\xef\xbe\xcd\xff"),
    ]),
    (1, 3, 65_536, &[Call::Lend, Call::EndsWith(b"\0\x01\x02\0")]),
    (1, 3, 65_536, &[
        Call::Write(65_534, true), Call::Write(65_535, false), Call::Write(65_537, false),
        Call::Write(4_294_967_295, false), Call::EndsWith(b"\0\x04\x05"),
    ]),
    (1, 3, 65_536, &[
        Call::StoreSeven, Call::Grow(3, None), Call::Grow(4_294_967_295, None),
        Call::Grow(0, Some(1)), Call::Grow(2, Some(1)), Call::Grow(1, None), Call::Grow(0, Some(3)),
        Call::HasThreePages,
    ]),
];

/// Whether all bytes from here on are zeros.
fn is_zero_from(bytes: &[u8], from: usize) -> bool {
    for byte in bytes.iter().skip(from) {
        if *byte != 0 {
            return false;
        }
    }
    true
}

/// Whether memory begins so, and with zeros.
fn is_begun_so(memory: &Memory, story: &Story) -> bool {
    memory.len() == story.2
        && memory.is_empty() == (story.0 == 0)
        && memory.pages() == story.0
        && memory.limit() == story.1
        && is_zero_from(memory.bytes(), 0)
}

fn are_eight_stored(memory: &mut Memory) -> bool {
    memory.store_u64(65_520, 8, 0x1122_3344_5566_7788).is_some()
        && memory
            .bytes()
            .ends_with(b"\0\x88\x77\x66\x55\x44\x33\x22\x11")
        && memory.load_u8(65_528, 1) == Some(0x77)
        && memory.load_u16(65_529, 1) == Some(0x5566)
        && memory.load_u32(65_532, 0) == Some(0x1122_3344)
        && memory.load_u64(65_528, 0) == Some(0x1122_3344_5566_7788)
}

/// Writes two bytes near the end, where that is within memory.
fn is_lent(memory: &mut Memory) -> bool {
    if !memory.has(65_533, 2) {
        return false;
    }
    memory.part_mut(65_533, 2).copy_from_slice(b"\x01\x02");
    true
}

fn has_three_pages(memory: &Memory) -> bool {
    memory.len() == 196_608
        && memory.load_u8(65_535, 0) == Some(7)
        && is_zero_from(memory.bytes(), 65_536)
}

/// Whether that is seen of memory.
fn is_read(memory: &Memory, call: &Call) -> bool {
    match call {
        Call::Read(address, offset, byte, four) => {
            memory.load_u8(*address, *offset).is_some() == *byte
                && memory.load_u32(*address, *offset).is_some() == *four
        }
        Call::Range(from, len, there) => {
            memory.part(*from, *len).is_some() == *there && memory.has(*from, *len) == *there
        }
        Call::HasThreePages => has_three_pages(memory),
        Call::EndsWith(bytes) => memory.bytes().ends_with(bytes),
        _ => false,
    }
}

/// Whether a call goes as it is to.
fn goes_so(memory: &mut Memory, call: &Call) -> bool {
    match call {
        Call::Store(at, there) => memory.store_u32(*at, 0, 0xdead_beef).is_some() == *there,
        Call::Write(from, there) => memory.write(*from, b"\x04\x05").is_some() == *there,
        Call::Grow(by, pages) => memory.grow(*by) == *pages,
        Call::StoreEight => are_eight_stored(memory),
        Call::StoreTwo => {
            memory.store_u16(65_534, 0, 0xabcd).is_some()
                && memory.store_u8(65_534, 1, 0xff).is_some()
        }
        Call::Lend => is_lent(memory),
        Call::StoreSeven => memory.store_u8(65_535, 0, 7).is_some(),
        call => is_read(memory, call),
    }
}

/// Whether all calls go as they are to.
fn go_so(memory: &mut Memory, calls: &[Call]) -> bool {
    for call in calls {
        if !goes_so(memory, call) {
            return false;
        }
    }
    true
}

/// Whether a story's memory begins as it is to, and all calls go so.
fn is_told_so(alloc: Global, story: &Story) -> Result<bool, MemoryFault> {
    if story.0 > story.1 || story.1 > 256 {
        return Ok(false);
    }
    let mut memory = Memory::new(alloc, story.0, story.1)?;
    let is_so = is_begun_so(&memory, story) && go_so(&mut memory, story.3);
    drop(memory);
    Ok(is_so)
}

/// `scripts/runs/refused-allocations` refuses each allocation in turn, and then this ends out of
/// memory.
#[test]
fn memory_is_held_within_its_limit(rt: HostRuntime) -> Result<(), MemoryFault> {
    for (place, story) in STORIES.iter().enumerate() {
        assert_number(&rt, is_told_so(rt.alloc(), story)?, place);
    }
    Ok(())
}
