//! The host's side of a process.

mod answers;
mod descriptors;
mod entries;
mod files;
mod input;
mod moving;
mod nodes;
mod opening;
mod renaming;
mod restoring;
mod succession;
mod texts;

ghost use Rattle.std.specs.Prelude.{◌≡◌, ◌+◌, ◌*◌, ◌<◌, ◌≤◌, ◌^◌, ◌++◌, length, IfOk, OnOk, OnErr};
ghost use Rattle.file_tree.specs.declared.limits.TheConstants.{UNIT_BYTES};
ghost use Rattle.wasi_calls_rules.specs.WasiStates.{WasiState as TheWasiState, IsWasiState};
ghost use Rattle.wasi_calls_rules.specs.WasiStates.{first_descriptors, first_host};
ghost use Rattle.wasi_calls_rules.specs.Checks.{gathered};
ghost use Rattle.wasi_calls_rules.specs.Lines.{stream_written, rest_of, lines_ended};
ghost use Rattle.wasi_calls.specs.Moves.{AreInside};
ghost use Rattle.wasi_calls.specs.Writes.{unfinished_of};

use crate::buffers::Buffers;
use crate::descriptor::Descriptor;
use crate::line::Line;
use crate::streams::Streams;
use file_tree::Tree;
use guest_memory::Memory;
use guest_memory::laws::are_bytes;
pub use restoring::{PartsFault, WasiStateParts};
use std::alloc::{AllocError, Global};
use std::marker::Model;
use wasi_abi::{Config, Rights, Version};
use wasi_calls_rules::OutputStream;
use wasi_calls_rules::limits::DESCRIPTORS;

/// The number of the root.
pub const ROOT: u64 = 1;

/// Descriptors that a process begins with: three streams and the root.
const OPENED: usize = 4;

/// Files, descriptors and streams of a process, and what it was configured with. Contracts see the
/// host of the rules, whose lines are those that wait, and how many were released before.
#[derive(Drop)]
pub struct WasiState {
    config: Config,
    version: Version,
    tree: Tree,
    descriptors: Vec<Option<Descriptor>>,
    unread: Vec<u8>,
    input_ended: bool,
    last_monotonic: u64,
    streams: Streams,
}

impl Model for WasiState {
    ghost use Rattle.wasi_calls_rules.specs.WasiStates.{IsWasiState};
    ghost use Rattle.wasi_calls.specs.rules.Held.{HeldWasiState, held_host_of};

    ghost Value = { HeldWasiState };

    ghost view = { λ h. held_host_of h.config h.version h.tree h.descriptors.items h.unread.items
        h.input_ended h.last_monotonic h.streams };

    ghost invariant = { λ h. IsWasiState (held_host_of h.config h.version h.tree h.descriptors.items
        h.unread.items h.input_ended h.last_monotonic h.streams).host };
}

impl WasiState {
    ghost use Rattle.wasi_calls.specs.rules.Held.{HeldWasiState, ShowsWasiState, held_ended};
    ghost use Rattle.wasi_calls.specs.rules.Held.{held_released, held_widened};
    ghost use Rattle.wasi_abi.specs.declared.version.Version.TheVariants.{Two};

    /// The host of a process that begins. It fails only when out of memory.
    pub fn new(alloc: Global, config: Config, version: Version) -> Result<WasiState, AllocError>
        ensures { IfOk result (λ h. h ≡ record {
          released = 0;
          host = first_host (config.files * UNIT_BYTES) version config.arguments config.environment;
        }) }
    {
        Ok(WasiState {
            config,
            version,
            tree: Tree::new(alloc)?,
            descriptors: begin(alloc)?,
            unread: Vec::new(alloc),
            input_ended: false,
            last_monotonic: 0,
            streams: Streams::new(alloc),
        })
    }

    /// Writes the bytes of buffers to a stream. It fails only when out of memory, and changes
    /// nothing then.
    pub(crate) fn write(
        &mut self,
        alloc: Global,
        stream: OutputStream,
        memory: &Memory,
        buffers: &Buffers,
    ) -> Result<(), AllocError>
        requires { AreInside memory.now.bytes buffers.now }
        ensures written { OnOk result (self.new ≡ record self.old {
          host =
              stream_written stream (gathered memory.now.bytes buffers.now) self.old.host;
        }) }
        ensures unchanged { OnErr result (self.new ≡ self.old) }
    {
        are_bytes(memory.bytes());
        self.streams.write(alloc, stream, memory, buffers)?;
        Ok(())
    }

    /// The unfinished line of a stream.
    pub(crate) fn unfinished_line(&self, stream: OutputStream) -> &[u8]
        ensures { result.now ≡ unfinished_of stream self.now.host }
    {
        self.streams.unfinished_line(stream)
    }

    /// How many lines are unfinished: an end would emit them.
    pub fn unfinished_line_count(&self) -> usize
        ensures value { length (lines_ended self.now.host).lines
            ≡ length self.now.host.lines + result }
        ensures few { result ≤ 2 }
    {
        self.streams.unfinished_line_count()
    }

    /// The files and directories.
    pub fn tree(&self) -> &Tree
        ensures { result.now ≡ self.now.host.files }
    {
        &self.tree
    }

    /// What is open under each number, from 0 on.
    pub fn descriptors(&self) -> &[Option<Descriptor>]
        ensures { result.now ≡ self.now.host.descriptors }
    {
        self.descriptors.as_slice()
    }

    /// Bytes of requests that were not read yet.
    pub fn unread_bytes(&self) -> &[u8]
        ensures { result.now ≡ self.now.host.unread }
    {
        self.unread.as_slice()
    }

    /// Whether input has ended: no more requests come.
    pub fn has_input_ended(&self) -> bool
        ensures { result ≡ self.now.host.input_ended }
    {
        self.input_ended
    }

    /// The last monotonic time that a guest saw, in nanoseconds, or 0 before the first one.
    pub fn last_monotonic(&self) -> u64
        ensures { result ≡ self.now.host.last_monotonic }
    {
        self.last_monotonic
    }

    /// The unfinished line of stdout.
    pub fn first(&self) -> &[u8]
        ensures { result.now ≡ self.now.host.first }
    {
        self.streams.unfinished_line(OutputStream::Stdout)
    }

    /// The unfinished line of stderr.
    pub fn second(&self) -> &[u8]
        ensures { result.now ≡ self.now.host.second }
    {
        self.streams.unfinished_line(OutputStream::Stderr)
    }

    /// The version, which says how long a request's text and the random bytes of a call may be.
    pub fn version(&self) -> Version
        ensures { result ≡ self.now.host.version }
    {
        self.version
    }

    /// It is of version 2 from now on.
    pub fn widen(&mut self)
        ensures changed { self.new ≡ held_widened self.old }
        ensures shown { (h : TheWasiState) → ShowsWasiState self.old h
            → ShowsWasiState self.new (record h { version = Two }) }
    {
        self.version = Version::Two;
    }

    /// The lines that wait to be released, in the order in which they were emitted.
    pub fn waiting_lines(&self) -> &[Line]
        ensures lines { result.now ≡ self.now.host.lines }
        ensures shape { IsWasiState self.now.host }
    {
        self.streams.waiting_lines()
    }

    /// How many lines were released: the first one that waits has the next number, and numbers
    /// begin at 1.
    pub fn released_count(&self) -> u64
        ensures { result ≡ self.now.released }
    {
        self.streams.released_count()
    }

    /// The first so many lines that wait are released.
    pub fn release(&mut self, count: usize)
        requires there { count ≤ length self.old.host.lines }
        requires counted { self.old.released + count < 2 ^ 64 }
        ensures changed { self.new ≡ held_released count self.old }
        ensures shown { (h : TheWasiState) → ShowsWasiState self.old h → ShowsWasiState self.new h }
    {
        self.streams.release(count);
    }

    /// Emits what is not finished, as the end of a process does. It takes no memory.
    pub fn end(&mut self, alloc: Global)
        ensures changed { self.new ≡ held_ended self.old }
        ensures shown { (h : TheWasiState) → ShowsWasiState self.old h
            → ShowsWasiState self.new (lines_ended h) }
    {
        self.streams.end(alloc);
    }
}

/// The descriptors that a process begins with.
fn begin(alloc: Global) -> Result<Vec<Option<Descriptor>>, AllocError>
    ensures { IfOk result (λ v. v.items ≡ first_descriptors) }
{
    let mut descriptors = Vec::with_capacity(alloc, DESCRIPTORS)?;
    descriptors.push(Some(Descriptor::stream(0, Rights::INPUT)))?;
    descriptors.push(Some(Descriptor::stream(1, Rights::OUTPUT)))?;
    descriptors.push(Some(Descriptor::stream(2, Rights::OUTPUT)))?;
    let root = Descriptor::directory(ROOT, Rights::DIRECTORY, Rights::ALL);
    descriptors.push(Some(root))?;
    for _ in OPENED..DESCRIPTORS {
        descriptors.push(None)?;
    }
    Ok(descriptors)
}
