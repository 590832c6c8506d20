//! The machine of a process.

ghost use Rattle.std.specs.Option.{option_map};
ghost use Rattle.state_image.specs.rules.ProcessImage.{place_bytes, memory_bytes};
ghost use Rattle.state_image.specs.rules.Ranges.{IsPlaceIn, IsWhole};
ghost use Rattle.state_image.specs.rules.LentFrames.{frame_of};
ghost use Rattle.state_image.specs.rules.Reading.{ReadsField};

use crate::reading::cursor::ProcessImageReader;
use crate::reading::words::{Words, read_word_list};
use guest_memory::PAGE_SIZE;

/// A frame: its function, its position, and its slots.
#[derive(Debug, Drop)]
pub struct ReadFrame<'a> {
    pub function: u32,
    pub position: u32,
    pub slots: Words<'a>,
}

pub fn read_frame<'a>(reader: &mut ProcessImageReader<'a>) -> Option<ReadFrame<'a>>
    ensures { ReadsField place_bytes IsPlaceIn (option_map frame_of result) reader.old reader.new }
{
    let function = reader.u32()?;
    let position = reader.u32()?;
    let slots = read_word_list(reader)?;
    Some(ReadFrame {
        function,
        position,
        slots,
    })
}

/// How many pages there are, and their bytes.
pub fn read_memory<'a>(reader: &mut ProcessImageReader<'a>) -> Option<&'a [u8]>
    ensures { ReadsField memory_bytes IsWhole (option_map (λ memory. memory.now) result)
        reader.old reader.new }
{
    let pages = reader.u32()?;
    reader.bytes(pages as usize * PAGE_SIZE as usize)
}
