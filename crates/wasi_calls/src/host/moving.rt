//! Bytes that are moved between a guest's memory and the files, the input and the output of a host.
//!
//! **A write to a file makes room first, and then puts pieces in place.** `Tree::resize` alone can
//! need memory. `Tree::write` stays within the size and can't fail. The guest's buffers go into the
//! file one after the other, and none are joined.

ghost use Rattle.std.specs.Prelude.{◌≡◌, ◌≤◌, ◌<◌, ◌+◌, ◌^◌, ◌==◌, false};
ghost use Rattle.std.specs.Prelude.{length, vec_len, min, take, drop, option_copied, Ok};
ghost use Rattle.std.specs.Prelude.{[], ◌∷◌, ◌++◌, OnOk, OnErr, IfOk, IfErr};
ghost use Rattle.wasi_abi.specs.rules.Answers.{newline, Fits};
ghost use Rattle.file_tree.specs.rules.Bytes.{written};
ghost use Rattle.file_tree.specs.rules.Files.{is_directory, bytes_of_node, with_file_bytes};
ghost use Rattle.file_tree.specs.declared.limits.TheConstants.{FILE_BYTES};
ghost use Rattle.wasi_abi.specs.declared.answer.Question.TheVariants.{Request};
ghost use Rattle.wasi_abi.specs.rules.Versions.{text_limit};
ghost use Rattle.wasi_calls_rules.specs.WasiStates.{Node, Descriptor as Opened, IsThere};
ghost use Rattle.wasi_calls_rules.specs.WasiStates.{IsDescriptor};
ghost use Rattle.wasi_calls_rules.specs.Checks.{gathered, scattered, open_descriptor};
ghost use Rattle.wasi_calls_rules.specs.Checks.{names_directory};
ghost use Rattle.wasi_calls_rules.specs.Moving.{file_read, file_written, write_offset};
ghost use Rattle.wasi_calls_rules.specs.Moving.{target_written, target_read, input_read};
ghost use Rattle.wasi_calls_rules.specs.declared.limits.TheConstants.{MOVED_BYTES};
ghost use Rattle.wasi_calls.specs.Moves.{total_len, AreInside, supplied};
ghost use Rattle.wasi_calls.specs.Moves.{ReadsInto, line_taken, moved_behind};
ghost use Rattle.wasi_calls.specs.Steps.{StopsStep};
ghost use Rattle.wasi_calls.specs.rules.Calls.{IsAsLarge};

use crate::buffers::Buffers;
use crate::descriptor::{Descriptor, Names};
use crate::host::WasiState;
use crate::stop::CallStop;
use crate::streams::output_stream;
use file_tree::Tree;
use file_tree::limits::FILE_BYTES;
use guest_memory::Memory;
use guest_memory::laws::are_bytes;
use std::alloc::{AllocError, Global};
use wasi_abi::{Answer, DescriptorFlags, Errno, Question, fits};

impl WasiState {
    /// Where a write to a file begins: at the descriptor's offset, or with `append` at the end.
    fn write_offset(&self, descriptor: &Descriptor, node: u64) -> u64
        ensures { result ≡ write_offset self.now.host node descriptor.now }
    {
        if descriptor.flags().has(DescriptorFlags::APPEND) {
            self.size(node)
        } else {
            descriptor.offset()
        }
    }

    /// Writes the bytes of buffers to a file from a place on, with zeros in a gap before them. No
    /// bytes change nothing.
    pub(crate) fn write_file(
        &mut self,
        node: u64,
        from: u64,
        memory: &Memory,
        buffers: &Buffers,
    ) -> Result<(), CallStop>
        requires there { IsThere self.old.host.files (Node node) }
        requires file { is_directory self.old.host.files node ≡ false }
        requires inside { AreInside memory.now.bytes buffers.now }
        ensures done { OnOk result (file_written node from
            (gathered memory.now.bytes buffers.now) self.old.host ≡ Ok self.new.host) }
        ensures stopped { IfErr result (λ why. StopsStep why (file_written node from
            (gathered memory.now.bytes buffers.now) self.old.host)) }
        ensures kept { IfErr result (λ _. self.new ≡ self.old) }
        ensures released { self.new.released ≡ self.old.released }
        ensures end { OnOk result (0 < total_len buffers.now
            → from + total_len buffers.now ≤ FILE_BYTES) }
    {
        let len = buffers.len() as u64;
        if len == 0 {
            return Ok(());
        }
        if from > FILE_BYTES {
            return Err(CallStop::Refused(Errno::Fbig));
        }
        let size = self.size(node).max(from + len);
        self.check_room(node, size)?;
        self.resize(node, size)?;
        self.put_file(node, from, memory, buffers);
        Ok(())
    }

    /// Puts the bytes of buffers in the place of others of a file.
    fn put_file(&mut self, node: u64, from: u64, memory: &Memory, buffers: &Buffers)
        requires there { IsThere self.old.host.files (Node node) }
        requires file { is_directory self.old.host.files node ≡ false }
        requires inside { AreInside memory.now.bytes buffers.now }
        requires within { from + total_len buffers.now
            ≤ length (bytes_of_node self.old.host.files node) }
        ensures { self.new ≡ record self.old {
          host = record self.old.host {
            files =
                with_file_bytes node (written (bytes_of_node self.old.host.files node) from
                (gathered memory.now.bytes buffers.now)) self.old.host.files;
          };
        } }
    {
        are_bytes(memory.bytes());
        put_pieces(&mut self.tree, node, from, memory, buffers);
    }

    /// Writes the bytes of buffers to what is open under a number.
    pub(crate) fn put(
        &mut self,
        alloc: Global,
        fd: u32,
        memory: &Memory,
        buffers: &Buffers,
    ) -> Result<(), CallStop>
        requires open { (d : Opened) × (open_descriptor self.old.host fd ≡ Ok d)
            × (names_directory self.old.host d.target ≡ false) }
        requires inside { AreInside memory.now.bytes buffers.now }
        ensures done { OnOk result ((d : Opened) → open_descriptor self.old.host fd ≡ Ok d
            → target_written d.target fd d (gathered memory.now.bytes buffers.now) self.old.host
            ≡ Ok self.new.host) }
        ensures stopped { IfErr result (λ why. (d : Opened)
            → open_descriptor self.old.host fd ≡ Ok d → StopsStep why (target_written d.target fd d
            (gathered memory.now.bytes buffers.now) self.old.host)) }
        ensures kept { IfErr result (λ _. self.new ≡ self.old) }
        ensures released { self.new.released ≡ self.old.released }
    {
        let descriptor = self.descriptor(fd).unwrap();
        match descriptor.names() {
            Names::Stream(number) => {
                self.write(alloc, output_stream(number), memory, buffers)?;
                Ok(())
            }
            Names::Node(node) => {
                let from = self.write_offset(descriptor, node);
                self.write_file(node, from, memory, buffers)?;
                self.move_behind(fd, from, buffers);
                Ok(())
            }
        }
    }

    /// Moves an open file's next read or write after the bytes of buffers that were written from an
    /// offset on. It stays where there are none.
    fn move_behind(&mut self, fd: u32, from: u64, buffers: &Buffers)
        requires open { (d : Opened) × (open_descriptor self.old.host fd ≡ Ok d) }
        requires end { 0 < total_len buffers.now → from + total_len buffers.now ≤ FILE_BYTES }
        ensures moved { (d : Opened) → open_descriptor self.old.host fd ≡ Ok d
            → self.new.host ≡ moved_behind fd from d (total_len buffers.now) self.old.host }
        ensures released { self.new.released ≡ self.old.released }
    {
        let len = buffers.len() as u64;
        if len == 0 {
            return;
        }
        self.move_to(fd, from + len);
    }

    /// Reads a file from a place on into buffers, and says how many bytes it gave.
    pub(crate) fn read_file(
        &self,
        node: u64,
        from: u64,
        memory: &mut Memory,
        buffers: &Buffers,
    ) -> u64
        requires inside { AreInside memory.old.bytes buffers.now }
        ensures read { memory.new.bytes ≡ scattered memory.old.bytes buffers.now
            (file_read self.now.host node from (total_len buffers.now)) }
        ensures count { result
            ≡ length (file_read self.now.host node from (total_len buffers.now)) }
        ensures few { result ≤ MOVED_BYTES }
        ensures end { from < 2 ^ 63 → from + result < 2 ^ 63 }
        ensures large { IsAsLarge memory.old memory.new }
    {
        read_pieces(&self.tree, node, from, memory, buffers)
    }

    /// Reads what is open under a number into buffers, and says how many bytes it gave. `answer` is
    /// a line that was asked for before, where one is there.
    pub(crate) fn take(
        &mut self,
        fd: u32,
        memory: &mut Memory,
        buffers: &Buffers,
        answer: Option<&Answer>,
    ) -> Result<u64, CallStop>
        requires open { (d : Opened) × (open_descriptor self.old.host fd ≡ Ok d) }
        requires inside { AreInside memory.old.bytes buffers.now }
        ensures done { IfOk result (λ n. (d : Opened) → open_descriptor self.old.host fd ≡ Ok d
            → ReadsInto n memory.old.bytes memory.new.bytes buffers.now self.new.host
            (target_read d.target fd d (total_len buffers.now) (option_copied answer.entry)
            self.old.host)) }
        ensures few { IfOk result (λ n. n ≤ MOVED_BYTES) }
        ensures stopped { IfErr result (λ why. (d : Opened)
            → open_descriptor self.old.host fd ≡ Ok d → StopsStep why (target_read d.target fd d
            (total_len buffers.now) (option_copied answer.entry) self.old.host)) }
        ensures memory_kept { IfErr result (λ _. memory.new ≡ memory.old) }
        ensures kept { IfErr result (λ _. self.new ≡ self.old) }
        ensures released { self.new.released ≡ self.old.released }
        ensures large { IsAsLarge memory.old memory.new }
    {
        let descriptor = self.descriptor(fd).unwrap();
        match descriptor.names() {
            Names::Stream(_) => self.read_input(memory, buffers, answer),
            Names::Node(node) => {
                let from = descriptor.offset();
                let moved = self.read_file(node, from, memory, buffers);
                self.move_to(fd, from + moved);
                Ok(moved)
            }
        }
    }

    /// Reads input into buffers. It asks for a line where none is there to read.
    fn read_input(
        &mut self,
        memory: &mut Memory,
        buffers: &Buffers,
        answer: Option<&Answer>,
    ) -> Result<u64, CallStop>
        requires inside { AreInside memory.old.bytes buffers.now }
        ensures done { IfOk result (λ n. ReadsInto n memory.old.bytes memory.new.bytes buffers.now
            self.new.host (input_read (total_len buffers.now) (option_copied answer.entry)
            self.old.host)) }
        ensures few { IfOk result (λ n. n ≤ MOVED_BYTES) }
        ensures stopped { IfErr result (λ why. StopsStep why (input_read (total_len buffers.now)
            (option_copied answer.entry) self.old.host)) }
        ensures memory_kept { IfErr result (λ _. memory.new ≡ memory.old) }
        ensures kept { IfErr result (λ _. self.new ≡ self.old) }
        ensures released { self.new.released ≡ self.old.released }
        ensures large { IsAsLarge memory.old memory.new }
    {
        if buffers.len() == 0 {
            return Ok(0);
        }
        self.supply(answer)?;
        Ok(self.take_unread(memory, buffers))
    }

    /// Takes a line where none is there to read and input hasn't ended. It asks for one where none
    /// is given that fits.
    fn supply(&mut self, answer: Option<&Answer>) -> Result<(), CallStop>
        ensures done { OnOk result (supplied (option_copied answer.entry) self.old.host
            ≡ Ok self.new.host) }
        ensures stopped { IfErr result (λ why.
            StopsStep why (supplied (option_copied answer.entry) self.old.host)) }
        ensures kept { IfErr result (λ _. self.new ≡ self.old) }
        ensures released { self.new.released ≡ self.old.released }
    {
        if !self.unread.is_empty() || self.input_ended {
            return Ok(());
        }
        let Some(answer) = answer else {
            return Err(CallStop::Asks(Question::Request));
        };
        if !fits(self.version.text_limit(), Question::Request, answer) {
            return Err(CallStop::Asks(Question::Request));
        }
        self.take_answer(answer)?;
        Ok(())
    }

    /// Takes an answer to a question for a line, where none is there to read. It fails only when
    /// out of memory, and changes nothing then.
    fn take_answer(&mut self, answer: &Answer) -> Result<(), AllocError>
        requires fits { Fits (text_limit self.old.host.version) Request answer.now }
        requires none { self.old.host.unread ≡ [] }
        ensures taken { OnOk result (line_taken answer.now self.old.host ≡ Ok self.new.host) }
        ensures released { self.new.released ≡ self.old.released }
        ensures kept { OnErr result (self.new ≡ self.old) }
    {
        match answer {
            Answer::Request { text } => self.take_line(text.as_slice()),
            Answer::End => {
                self.input_ended = true;
                Ok(())
            }
            _ => unreachable!(),
        }
    }

    /// Puts a line and a newline after what is there to read. It fails only when out of memory, and
    /// changes nothing then.
    fn take_line(&mut self, text: &[u8]) -> Result<(), AllocError>
        ensures taken { OnOk result (self.new ≡ record self.old {
          host = record self.old.host {
            unread = self.old.host.unread ++ (text.now ++ newline ∷ []);
          };
        }) }
        ensures kept { OnErr result (self.new ≡ self.old) }
    {
        self.unread.reserve(text.len() + 1)?;
        self.unread.extend_from_slice(text).unwrap();
        self.unread.push(b'\n').unwrap();
        Ok(())
    }

    /// Moves what is there to read into buffers, as far as they go, and says how many bytes.
    fn take_unread(&mut self, memory: &mut Memory, buffers: &Buffers) -> u64
        requires inside { AreInside memory.old.bytes buffers.now }
        ensures put { memory.new.bytes ≡ scattered memory.old.bytes buffers.now
            (take (total_len buffers.now) self.old.host.unread) }
        ensures count { result ≡ length (take (total_len buffers.now) self.old.host.unread) }
        ensures few { result ≤ MOVED_BYTES }
        ensures drained { self.new ≡ record self.old {
          host = record self.old.host {
            unread = drop (total_len buffers.now) self.old.host.unread;
          };
        } }
        ensures large { IsAsLarge memory.old memory.new }
    {
        let moved = scatter(memory, buffers, &self.unread);
        drop_front(&mut self.unread, moved);
        moved as u64
    }
}

/// Takes so many bytes away from the front. The rest is moved once, where `drain` turns all bytes
/// around.
fn drop_front(bytes: &mut Vec<u8>, count: usize)
    requires { count ≤ vec_len bytes.old }
    ensures { bytes.new.items ≡ drop count bytes.old.items }
{
    bytes.copy_within(count.., 0);
    bytes.truncate(bytes.len() - count);
}

/// Puts bytes into buffers, one after another, as far as they go, and says how many.
fn scatter(memory: &mut Memory, buffers: &Buffers, bytes: &[u8]) -> usize
    requires inside { AreInside memory.old.bytes buffers.now }
    ensures put { memory.new.bytes ≡ scattered memory.old.bytes buffers.now
        (take (total_len buffers.now) bytes.now) }
    ensures count { result ≡ length (take (total_len buffers.now) bytes.now) }
    ensures few { result ≤ MOVED_BYTES }
    ensures large { IsAsLarge memory.old memory.new }
{
    let mut moved = 0;
    for buffer in buffers.as_slice() {
        let piece = front(&bytes[moved..], buffer.len() as usize);
        memory.write(buffer.from(), piece).unwrap();
        moved += piece.len();
    }
    moved
}

/// The first of bytes, at most so many.
fn front(bytes: &[u8], len: usize) -> &[u8]
    ensures { result.now ≡ take len bytes.now }
{
    if bytes.len() <= len {
        bytes
    } else {
        &bytes[..len]
    }
}

/// Puts the bytes of buffers in the place of others of a file, one buffer after another.
fn put_pieces(tree: &mut Tree, node: u64, from: u64, memory: &Memory, buffers: &Buffers)
    requires there { IsThere tree.old (Node node) }
    requires file { is_directory tree.old node ≡ false }
    requires own { with_file_bytes node (bytes_of_node tree.old node) tree.old ≡ tree.old }
    requires small { length (bytes_of_node tree.old node) ≤ FILE_BYTES }
    requires inside { AreInside memory.now.bytes buffers.now }
    requires within { from + total_len buffers.now ≤ length (bytes_of_node tree.old node) }
    ensures { tree.new ≡ with_file_bytes node (written (bytes_of_node tree.old node) from
        (gathered memory.now.bytes buffers.now)) tree.old }
{
    let mut place = from;
    for buffer in buffers.as_slice() {
        let piece = buffer.bytes(memory);
        tree.write(node, place, piece);
        place += piece.len() as u64;
    }
}

/// Reads a file from a place on into buffers, one after another, and says how many bytes it gave.
fn read_pieces(tree: &Tree, node: u64, from: u64, memory: &mut Memory, buffers: &Buffers) -> u64
    requires inside { AreInside memory.old.bytes buffers.now }
    requires small { length (bytes_of_node tree.now node) ≤ FILE_BYTES }
    ensures read { memory.new.bytes ≡ scattered memory.old.bytes buffers.now
        (take (total_len buffers.now) (drop from (bytes_of_node tree.now node))) }
    ensures count { result
        ≡ length (take (total_len buffers.now) (drop from (bytes_of_node tree.now node))) }
    ensures few { result ≤ MOVED_BYTES }
    ensures large { IsAsLarge memory.old memory.new }
{
    let mut moved = 0;
    for buffer in buffers.as_slice() {
        let into = memory.part_mut(buffer.from(), buffer.len());
        moved += tree.read(node, from + moved, into) as u64;
    }
    moved
}
