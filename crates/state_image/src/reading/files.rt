//! The files of a process, node by node.

ghost use Rattle.std.specs.Option.{option_map};
ghost use Rattle.state_image.specs.rules.ProcessImage.{entry_bytes};
ghost use Rattle.state_image.specs.rules.Ranges.{IsEntryIn};
ghost use Rattle.state_image.specs.rules.Fronts.{lent_content, lent_node, lent_entry};
ghost use Rattle.state_image.specs.rules.Fronts.{content_front_bytes, IsContentFrontIn};
ghost use Rattle.state_image.specs.rules.Fronts.{front_bytes, IsFrontIn};
ghost use Rattle.state_image.specs.rules.Reading.{ReadsField};

use crate::reading::cursor::ProcessImageReader;
use wasi_abi::FileType;

/// The bytes of a file; or how many entries of a directory follow.
#[derive(Clone, Copy, Debug)]
pub enum ReadContent<'a> {
    Directory(u32),
    File(&'a [u8]),
}

/// A node. The entries of a directory are after it.
#[derive(Clone, Copy, Debug)]
pub struct ReadNode<'a> {
    pub number: u64,
    pub content: ReadContent<'a>,
}

/// An entry of a directory.
#[derive(Clone, Copy, Debug)]
pub struct ReadEntry<'a> {
    pub name: &'a [u8],
    pub number: u64,
}

pub fn read_node<'a>(reader: &mut ProcessImageReader<'a>) -> Option<ReadNode<'a>>
    ensures { ReadsField front_bytes IsFrontIn (option_map lent_node result) reader.old reader.new }
{
    let number = reader.u64()?;
    let content = read_content(reader)?;
    Some(ReadNode { number, content })
}

fn read_content<'a>(reader: &mut ProcessImageReader<'a>) -> Option<ReadContent<'a>>
    ensures { ReadsField content_front_bytes IsContentFrontIn (option_map lent_content result)
        reader.old reader.new }
{
    let file_type = reader.u8()?;
    if file_type == FileType::Directory.number() {
        return Some(ReadContent::Directory(reader.count()?));
    }
    if file_type == FileType::RegularFile.number() {
        return Some(ReadContent::File(reader.long_text()?));
    }
    None
}

pub fn read_entry<'a>(reader: &mut ProcessImageReader<'a>) -> Option<ReadEntry<'a>>
    ensures { ReadsField entry_bytes IsEntryIn (option_map lent_entry result)
        reader.old reader.new }
{
    let name = reader.short_text()?;
    let number = reader.u64()?;
    Some(ReadEntry { name, number })
}
