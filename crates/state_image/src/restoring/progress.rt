//! What an image has before the machine.

ghost use Rattle.state_image.specs.restoring.Processes.{ReadsProgress};

use crate::reading::{
    ProcessImageReader, ReadCounts, ReadEnd, ReadStreams, read_counts, read_end, read_mark,
    read_streams,
};
use wasi_abi::Version;

/// The version of a process, how far it has come, how it ended, and its streams.
#[derive(Clone, Copy, Debug)]
pub struct ProcessProgress<'a> {
    pub version: Version,
    pub counts: ReadCounts,
    pub end: ReadEnd,
    pub streams: ReadStreams<'a>,
}

/// The mark with which an image begins, and what is after it.
pub fn read_progress<'a>(reader: &mut ProcessImageReader<'a>) -> Option<ProcessProgress<'a>>
    ensures { ReadsProgress result reader.old reader.new }
{
    let version = read_mark(reader)?;
    let counts = read_counts(reader)?;
    let end = read_end(reader)?;
    let streams = read_streams(reader)?;
    Some(ProcessProgress {
        version,
        counts,
        end,
        streams,
    })
}
