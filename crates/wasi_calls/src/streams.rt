//! The output streams, and the lines that wait to be released.

ghost use Rattle.std.specs.Prelude.{◌≡◌, ◌+◌, ◌-◌, ◌<◌, ◌≤◌, ◌^◌, ◌++◌, ◌==◌, true, not, [], ◌∷◌};
ghost use Rattle.std.specs.Prelude.{length, take, drop, IfOk, OnOk, OnErr, vec_len, vec_capacity};
ghost use Rattle.std.specs.List.{prefix_len};
ghost use Rattle.wasi_abi.specs.rules.Answers.{newline};
ghost use Rattle.wasi_calls_rules.specs.Checks.{gathered, has_no_newline};
ghost use Rattle.wasi_calls_rules.specs.Lines.{cut_all, output_stream, rest_of};
ghost use Rattle.wasi_calls_rules.specs.declared.limits.TheConstants.{LINE_BYTES};
ghost use Rattle.wasi_calls_rules.specs.declared.output_stream.OutputStream.TheVariants.{Stdout};
ghost use Rattle.wasi_calls_rules.specs.declared.output_stream.OutputStream.TheVariants.{Stderr};
ghost use Rattle.wasi_calls.specs.Moves.{total_len, AreInside};

use crate::buffers::Buffers;
use crate::cut::Cut;
use crate::line::Line;
use guest_memory::Memory;
use std::alloc::{AllocError, Global};
use std::marker::Model;
use std::mem;
use wasi_calls_rules::OutputStream;
use wasi_calls_rules::limits::LINE_BYTES;

/// How many streams are written: each may have an unfinished line.
const STREAMS_WRITTEN: usize = 2;

/// What was written to stdout and stderr and not released yet. There is always room for the lines
/// that an end would emit.
#[derive(Drop)]
pub struct Streams {
    first: Vec<u8>,
    second: Vec<u8>,
    waiting: Vec<Line>,
    released: u64,
}

impl Model for Streams {
    ghost use Rattle.std.specs.Prelude.{vec_capacity};
    ghost use Rattle.wasi_calls.specs.rules.Outputs.{Output, HasLineRoom};

    ghost Value = { Output };

    ghost view = { λ s. record {
      first = s.first.items;
      second = s.second.items;
      waiting = s.waiting.items;
      released = s.released;
    } };

    ghost invariant = { λ s. HasLineRoom (vec_capacity s.waiting) (record {
      first = s.first.items;
      second = s.second.items;
      waiting = s.waiting.items;
      released = s.released;
    }) };
}

impl Streams {
    ghost use Rattle.wasi_calls.specs.rules.Outputs.{no_output, output_written, output_ended};
    ghost use Rattle.wasi_calls.specs.rules.Outputs.{unfinished_in, lines_at_end};

    /// Nothing was written.
    pub fn new(alloc: Global) -> Streams
        ensures { result ≡ no_output }
    {
        Streams {
            first: Vec::new(alloc),
            second: Vec::new(alloc),
            waiting: Vec::new(alloc),
            released: 0,
        }
    }

    /// Lines that are not finished, after so many that were released. It fails only when out of
    /// memory.
    pub fn of_unfinished(
        alloc: Global,
        first: Vec<u8>,
        second: Vec<u8>,
        released: u64,
    ) -> Result<Streams, AllocError>
        ensures { IfOk result (λ s. s ≡ record {
          first = first.items;
          second = second.items;
          waiting = [];
          released = released;
        }) }
    {
        Ok(Streams {
            first,
            second,
            waiting: Vec::with_capacity(alloc, STREAMS_WRITTEN)?,
            released,
        })
    }

    /// Writes the bytes of buffers to a stream. It fails only when out of memory, and changes
    /// nothing then.
    pub fn write(
        &mut self,
        alloc: Global,
        stream: OutputStream,
        memory: &Memory,
        buffers: &Buffers,
    ) -> Result<(), AllocError>
        requires { AreInside memory.now.bytes buffers.now }
        ensures written { OnOk result (self.new
            ≡ output_written stream (gathered memory.now.bytes buffers.now) self.old) }
        ensures unchanged { OnErr result (self.new ≡ self.old) }
    {
        match stream {
            OutputStream::Stdout => self.write_first(alloc, memory, buffers),
            OutputStream::Stderr => self.write_second(alloc, memory, buffers),
        }
    }

    fn write_first(
        &mut self,
        alloc: Global,
        memory: &Memory,
        buffers: &Buffers,
    ) -> Result<(), AllocError>
        requires { AreInside memory.now.bytes buffers.now }
        ensures written { OnOk result (self.new
            ≡ output_written Stdout (gathered memory.now.bytes buffers.now) self.old) }
        ensures unchanged { OnErr result (self.new ≡ self.old) }
    {
        put(
            alloc,
            OutputStream::Stdout,
            &mut self.first,
            &mut self.waiting,
            memory,
            buffers,
        )
    }

    fn write_second(
        &mut self,
        alloc: Global,
        memory: &Memory,
        buffers: &Buffers,
    ) -> Result<(), AllocError>
        requires { AreInside memory.now.bytes buffers.now }
        ensures written { OnOk result (self.new
            ≡ output_written Stderr (gathered memory.now.bytes buffers.now) self.old) }
        ensures unchanged { OnErr result (self.new ≡ self.old) }
    {
        put(
            alloc,
            OutputStream::Stderr,
            &mut self.second,
            &mut self.waiting,
            memory,
            buffers,
        )
    }

    /// The unfinished line of a stream.
    pub fn unfinished_line(&self, stream: OutputStream) -> &[u8]
        ensures { result.now ≡ unfinished_in stream self.now }
    {
        match stream {
            OutputStream::Stdout => self.first.as_slice(),
            OutputStream::Stderr => self.second.as_slice(),
        }
    }

    /// How many lines are unfinished.
    pub fn unfinished_line_count(&self) -> usize
        ensures value { result ≡ length (lines_at_end self.now) }
        ensures few { result ≤ 2 }
    {
        usize::from(!self.first.is_empty()) + usize::from(!self.second.is_empty())
    }

    /// The lines that wait, in the order in which they were emitted.
    pub fn waiting_lines(&self) -> &[Line]
        ensures { result.now ≡ self.now.waiting }
    {
        self.waiting.as_slice()
    }

    /// How many lines were released.
    pub fn released_count(&self) -> u64
        ensures { result ≡ self.now.released }
    {
        self.released
    }

    /// The first so many lines that wait are released.
    pub fn release(&mut self, count: usize)
        requires there { count ≤ length self.old.waiting }
        requires counted { self.old.released + count < 2 ^ 64 }
        ensures { self.new ≡ record self.old {
          waiting = drop count self.old.waiting;
          released = self.old.released + count;
        } }
    {
        self.waiting.drain(..count);
        self.released += count as u64;
    }

    /// So many lines were released before those that wait.
    pub fn count_from(&mut self, released: u64)
        ensures { self.new ≡ record self.old { released = released } }
    {
        self.released = released;
    }

    /// Emits what is not finished. It takes no memory.
    pub fn end(&mut self, alloc: Global)
        ensures { self.new ≡ output_ended self.old }
    {
        let first = mem::replace(&mut self.first, Vec::new(alloc));
        let second = mem::replace(&mut self.second, Vec::new(alloc));
        emit_rest(&mut self.waiting, OutputStream::Stdout, first);
        emit_rest(&mut self.waiting, OutputStream::Stderr, second);
    }
}

/// The stream that a descriptor of this number writes to.
pub fn output_stream(number: u8) -> OutputStream
    ensures { result ≡ output_stream number }
{
    if number == 1 {
        OutputStream::Stdout
    } else {
        OutputStream::Stderr
    }
}

/// Puts the bytes of buffers after a stream's unfinished line, and the lines that they end after
/// those that wait. Bytes that end none, or one by their last byte, are put in place: a line that
/// is written byte by byte isn't copied.
fn put(
    alloc: Global,
    stream: OutputStream,
    unfinished: &mut Vec<u8>,
    waiting: &mut Vec<Line>,
    memory: &Memory,
    buffers: &Buffers,
) -> Result<(), AllocError>
    requires { AreInside memory.now.bytes buffers.now }
    ensures written { OnOk result (cut_all stream
        (record { lines = waiting.old.items; unfinished = unfinished.old.items })
        (gathered memory.now.bytes buffers.now)
        ≡ record { lines = waiting.new.items; unfinished = unfinished.new.items }) }
    ensures room { OnOk result (vec_len waiting.new + 2 ≤ vec_capacity waiting.new) }
    ensures capacity { vec_capacity waiting.old ≤ vec_capacity waiting.new }
    ensures same_lines { OnErr result (waiting.new.items ≡ waiting.old.items) }
    ensures same_rest { OnErr result (unfinished.new.items ≡ unfinished.old.items) }
{
    let before = bytes_before_newline(memory, buffers);
    if ends_one_at_most(unfinished.len(), before, buffers.len()) {
        waiting.reserve(STREAMS_WRITTEN + 1)?;
        append(unfinished, memory, buffers)?;
        if before == buffers.len() {
            return Ok(());
        }
        emit_unfinished(alloc, stream, unfinished, waiting);
        return Ok(());
    }
    let (lines, rest) = Cut::of(alloc, stream, unfinished, memory, buffers)?.into_parts();
    emit(waiting, lines)?;
    *unfinished = rest;
    Ok(())
}

/// How many bytes of buffers come before the first newline, or in all.
fn bytes_before_newline(memory: &Memory, buffers: &Buffers) -> usize
    requires { AreInside memory.now.bytes buffers.now }
    ensures { result
        ≡ prefix_len (λ b. not (b == newline)) (gathered memory.now.bytes buffers.now) }
{
    let mut before = 0;
    for buffer in buffers.as_slice() {
        let bytes = buffer.bytes(memory);
        let own = length_before_newline(bytes);
        before += own;
        if own < bytes.len() {
            return before;
        }
    }
    before
}

/// How many bytes come before the first newline, or in all.
fn length_before_newline(bytes: &[u8]) -> usize
    ensures { result ≡ prefix_len (λ b. not (b == newline)) bytes.now }
{
    let mut before = 0;
    for byte in bytes {
        if *byte == b'\n' {
            return before;
        }
        before += 1;
    }
    before
}

/// Whether bytes end no line after so many unfinished ones, or one by their last byte: so many come
/// before the first newline, of so many in all.
fn ends_one_at_most(unfinished: usize, before: usize, len: usize) -> bool
    requires { before ≤ len }
    ensures { result ≡ true → (unfinished + before ≤ LINE_BYTES) × (len ≤ before + 1) }
{
    unfinished <= LINE_BYTES && before <= LINE_BYTES - unfinished && len - before <= 1
}

/// Whether no byte is a newline.
pub fn is_without_newline(bytes: &[u8]) -> bool
    ensures { result ≡ has_no_newline bytes.now }
{
    for byte in bytes {
        if *byte == b'\n' {
            return false;
        }
    }
    true
}

/// Puts the bytes of buffers after others. After a failure they are as they were.
fn append(bytes: &mut Vec<u8>, memory: &Memory, buffers: &Buffers) -> Result<(), AllocError>
    requires { AreInside memory.now.bytes buffers.now }
    ensures appended { OnOk result (bytes.new.items
        ≡ bytes.old.items ++ gathered memory.now.bytes buffers.now) }
    ensures unchanged { OnErr result (bytes.new.items ≡ bytes.old.items) }
{
    bytes.reserve(buffers.len())?;
    for buffer in buffers.as_slice() {
        bytes.extend_from_slice(buffer.bytes(memory)).unwrap();
    }
    Ok(())
}

/// Puts an unfinished line, which its last byte ends, after the lines that wait.
fn emit_unfinished(
    alloc: Global,
    stream: OutputStream,
    unfinished: &mut Vec<u8>,
    waiting: &mut Vec<Line>,
)
    requires { vec_len waiting.old < vec_capacity waiting.old }
    ensures emitted { waiting.new.items ≡ waiting.old.items ++ record {
      stream = stream;
      text = take (length unfinished.old.items - 1) unfinished.old.items;
    } ∷ [] }
    ensures none { unfinished.new.items ≡ [] }
    ensures len { vec_len waiting.new ≡ vec_len waiting.old + 1 }
    ensures capacity { vec_capacity waiting.old ≤ vec_capacity waiting.new }
{
    let mut text = mem::replace(unfinished, Vec::new(alloc));
    text.pop();
    waiting.push(Line::new(stream, text)).unwrap();
}

/// Puts lines after the others, with room for two more. After a failure the lines are as they were.
fn emit(waiting: &mut Vec<Line>, mut lines: Vec<Line>) -> Result<(), AllocError>
    ensures emitted { OnOk result (waiting.new.items ≡ waiting.old.items ++ lines.items) }
    ensures room { OnOk result (vec_len waiting.new + 2 ≤ vec_capacity waiting.new) }
    ensures unchanged { OnErr result (waiting.new.items ≡ waiting.old.items) }
    ensures capacity { vec_capacity waiting.old ≤ vec_capacity waiting.new }
{
    waiting.reserve(lines.len().saturating_add(2))?;
    waiting.append(&mut lines).unwrap();
    Ok(())
}

/// Puts a line that is not finished after the others, where it has any byte.
fn emit_rest(waiting: &mut Vec<Line>, stream: OutputStream, text: Vec<u8>)
    requires { vec_len waiting.old + length (rest_of stream text.items) ≤ vec_capacity waiting.old }
    ensures emitted { waiting.new.items ≡ waiting.old.items ++ rest_of stream text.items }
    ensures capacity { vec_capacity waiting.old ≤ vec_capacity waiting.new }
{
    if !text.is_empty() {
        waiting.push(Line::new(stream, text)).unwrap();
    }
}
