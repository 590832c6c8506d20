//! The host of an image, made again.

ghost use Rattle.std.specs.Prelude.{◌≡◌, ◌≢◌, ◌<◌, ◌^◌, ◌++◌, ℕ, List, IfOk, Err};
ghost use Rattle.wasi_calls_rules.specs.WasiStates.{WasiState as TheWasiState, IsWasiState};
ghost use Rattle.state_image.specs.declared.restoring.fault.RestoreFault.TheVariants as fault;
ghost use Rattle.state_image.specs.restoring.SavedHosts.{IsRestoredWasiState, IsSavedHost};
ghost use Rattle.state_image.specs.restoring.SavedHosts.{host_bytes, AreReadParts, AreTexts};
ghost use Rattle.state_image.specs.restoring.SavedHosts.{fault_of_parts};

use crate::reading::{ProcessImageReader, ReadStreams};
use crate::restoring::descriptors::restore_descriptors;
use crate::restoring::fault::RestoreFault;
use crate::restoring::files::restore_files;
use crate::restoring::progress::ProcessProgress;
use std::alloc::{AllocError, Global};
use wasi_abi::Config;
use wasi_calls::{PartsFault, WasiState, WasiStateParts};

/// The host of this configuration of which this was told, and whose files and descriptors are
/// next in an image. It reads each byte once. No line waits.
pub fn restore_host(
    alloc: Global,
    config: Config,
    progress: ProcessProgress,
    reader: &mut ProcessImageReader,
) -> Result<WasiState, RestoreFault>
    ensures made { IfOk result (λ held. IsRestoredWasiState config progress.entry held reader.old
        reader.new) }
    ensures refused { result ≡ Err fault.NotAnImage → (h : TheWasiState) (rest : List ℕ)
        → IsWasiState h → h.files.next < 2 ^ 64 → IsSavedHost config progress.entry h
        → reader.old ≢ host_bytes h ++ rest }
{
    let parts = read_parts(alloc, progress, reader)?;
    Ok(WasiState::from_parts(alloc, config, progress.version, parts)?)
}

/// The parts of a host of which this was told, and whose files and descriptors are next in an
/// image.
fn read_parts(
    alloc: Global,
    progress: ProcessProgress,
    reader: &mut ProcessImageReader,
) -> Result<WasiStateParts, RestoreFault>
    ensures made { IfOk result (λ p. AreReadParts progress.entry p reader.old reader.new) }
    ensures refused { result ≡ Err fault.NotAnImage → (h : TheWasiState) (rest : List ℕ)
        → IsWasiState h → h.files.next < 2 ^ 64 → reader.old ≢ host_bytes h ++ rest }
{
    let tree = restore_files(alloc, reader)?;
    let descriptors = restore_descriptors(alloc, &tree, reader)?;
    let texts = texts_of(alloc, progress.streams)?;
    Ok(WasiStateParts {
        tree,
        descriptors,
        unread: texts.unread,
        input_ended: progress.end.input_ended,
        last_monotonic: progress.counts.last_monotonic,
        first: texts.first,
        second: texts.second,
        released: progress.counts.lines,
    })
}

/// What is unread, and the unfinished lines of stdout and stderr.
#[derive(Drop)]
struct HostTexts {
    unread: Vec<u8>,
    first: Vec<u8>,
    second: Vec<u8>,
}

/// The texts of a host of which this was told.
fn texts_of(alloc: Global, streams: ReadStreams) -> Result<HostTexts, AllocError>
    ensures { IfOk result (AreTexts streams.entry) }
{
    let unread = Vec::from_slice(alloc, streams.unread)?;
    let first = Vec::from_slice(alloc, streams.first)?;
    let second = Vec::from_slice(alloc, streams.second)?;
    Ok(HostTexts {
        unread,
        first,
        second,
    })
}

impl From<PartsFault> for RestoreFault {
    ghost from_gives = { λ parts made. made ≡ fault_of_parts parts };

    fn from(fault: PartsFault) -> RestoreFault {
        match fault {
            PartsFault::NoWasiState => RestoreFault::NotAnImage,
            PartsFault::Memory => RestoreFault::Memory,
        }
    }
}
