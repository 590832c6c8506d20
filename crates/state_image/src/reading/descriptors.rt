//! The open descriptors of a process.

ghost use Rattle.state_image.specs.rules.RawDescriptors.{raw_bytes, IsRawIn};
ghost use Rattle.state_image.specs.rules.Reading.{ReadsField};

use crate::reading::cursor::ProcessImageReader;

/// An open descriptor: its number, the stream or the type of its node, the node or 0, and the rest.
#[derive(Clone, Copy, Debug, PartialEq, Eq)]
pub struct ReadDescriptor {
    pub number: u32,
    pub target_type: u8,
    pub node: u64,
    pub offset: u64,
    pub flags: u16,
    pub base: u64,
    pub inheriting: u64,
}

pub fn read_descriptor(reader: &mut ProcessImageReader) -> Option<ReadDescriptor>
    ensures { ReadsField raw_bytes IsRawIn result reader.old reader.new }
{
    let number = reader.u32()?;
    let target_type = reader.u8()?;
    let node = reader.u64()?;
    let offset = reader.u64()?;
    let flags = reader.u16()?;
    let base = reader.u64()?;
    let inheriting = reader.u64()?;
    Some(ReadDescriptor {
        number,
        target_type,
        node,
        offset,
        flags,
        base,
        inheriting,
    })
}
