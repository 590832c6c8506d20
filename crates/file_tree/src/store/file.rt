//! The bytes of a file.
//!
//! # Choices
//!
//! - **Behind a file's bytes its last chunk is zeros.** A file that grows within a chunk so changes
//!   its length alone. A cut pays for it, with zeros in one chunk at most.
//! - **All chunks of a growth are taken first**, in a list of their own. Room for them in the slab,
//!   and for their keys in the file, is taken, too. Then the chunks are put in, which can't fail.
//!   Where memory ends they are dropped, and nothing has changed.

ghost use Rattle.std.specs.Prelude.{◌≡◌, ◌+◌, ◌-◌, ◌<◌, ◌≤◌, ◌^◌, ◌++◌, [], min, length, take};
ghost use Rattle.std.specs.Prelude.{drop, OnOk, OnErr};
ghost use Rattle.file_tree.specs.declared.limits.TheConstants.{FILE_BYTES};
ghost use Rattle.file_tree.specs.rules.Bytes.{written, resized};
ghost use Rattle.file_tree.specs.rules.Chunks.{chunk_of};
ghost use Rattle.file_tree.specs.Store.Bodies.{InChunks, keys_of, len_of, bytes_of_file, HasChunks};
ghost use Rattle.file_tree.specs.Store.Bodies.{Rekeys, TurnsInto};

use crate::limits::CHUNK_BYTES;
use crate::store::chunks::{
    Chunk, chunks_of_size, clear_chunk, free_chunks, put_chunks, read_chunks, write_chunks,
    zero_chunks,
};
use slab::Slab;
use std::alloc::{AllocError, Global};
use std::marker::Model;

/// How many bytes a file has, and the keys of the chunks in which they lie, in their order. The
/// chunks are in a slab that all files share. More bytes move none of those that are there.
#[derive(Debug, Drop)]
pub struct FileChunks {
    keys: Vec<usize>,
    len: usize,
}

impl Model for FileChunks {
    ghost use Rattle.file_tree.specs.Store.Bodies.{FileBody, InChunks};

    ghost Value = { FileBody };

    ghost view = { λ f. InChunks f.keys.items f.len };

    ghost use Rattle.std.specs.Prelude.{◌≤◌};
    ghost use Rattle.file_tree.specs.declared.limits.TheConstants.{FILE_BYTES};

    ghost invariant = { λ f. f.len ≤ FILE_BYTES };
}

impl FileChunks {
    /// No bytes. It takes no memory.
    pub fn new(alloc: Global) -> Self
        ensures { result ≡ InChunks [] 0 }
    {
        FileChunks {
            keys: Vec::new(alloc),
            len: 0,
        }
    }

    /// How many bytes there are.
    pub fn len(&self) -> usize
        ensures { result ≡ len_of self.now }
    {
        self.len
    }

    /// The bytes in the chunk at a place. The last chunk may have fewer, and after it there are
    /// none.
    pub fn chunk<'a>(&self, chunks: &'a Slab<Chunk>, index: usize) -> &'a [u8]
        requires { HasChunks chunks.now self.now }
        ensures { result.now ≡ chunk_of (bytes_of_file chunks.now self.now) index }
    {
        let keys = self.keys.as_slice();
        if index >= keys.len() {
            return b"";
        }
        let bytes = chunks[keys[index]].as_slice();
        let rest = self.len - index * CHUNK_BYTES;
        if rest < CHUNK_BYTES {
            &bytes[..rest]
        } else {
            bytes
        }
    }

    /// Puts the bytes from one of them on into `into`, as many as there are and fit, and gives how
    /// many. What is after them in `into` stays.
    pub fn read(&self, chunks: &Slab<Chunk>, from: usize, into: &mut [u8]) -> usize
        requires { HasChunks chunks.now self.now }
        ensures count { result
            ≡ length (take (length into.old) (drop from (bytes_of_file chunks.now self.now))) }
        ensures bytes { into.new
            ≡ take (length into.old) (drop from (bytes_of_file chunks.now self.now))
            ++ drop result into.old }
    {
        let count = count_from(self.len, from, into.len());
        if count > 0 {
            read_chunks(chunks, self.keys.as_slice(), from, &mut into[..count]);
        }
        count
    }

    /// Puts bytes in the place of others. It touches the chunks in which they lie alone.
    pub fn write(&self, chunks: &mut Slab<Chunk>, from: usize, bytes: &[u8])
        requires held { HasChunks chunks.old self.now }
        requires within { from + length bytes.now ≤ len_of self.now }
        ensures { TurnsInto chunks.old chunks.new self.now self.now
            (written (bytes_of_file chunks.old self.now) from bytes.now) }
    {
        write_chunks(chunks, self.keys.as_slice(), from, bytes);
    }

    /// Cuts the bytes to a size, or puts zeros after them up to it. It touches the last chunk, and
    /// those that come or go. It fails only when out of memory, and then nothing is changed.
    pub fn resize(&mut self, chunks: &mut Slab<Chunk>, size: usize) -> Result<(), AllocError>
        requires held { HasChunks chunks.old self.old }
        requires size { size ≤ FILE_BYTES }
        ensures resized { OnOk result (TurnsInto chunks.old chunks.new self.old self.new
            (resized (bytes_of_file chunks.old self.old) size)) }
        ensures unchanged { OnErr result (self.new ≡ self.old) }
        ensures kept { OnErr result (Rekeys chunks.old chunks.new [] []) }
    {
        if size < self.len {
            self.cut(chunks, size);
            return Ok(());
        }
        self.grow(chunks, size)
    }

    // Puts zeros after the bytes up to a size. All chunks for them are taken before anything is
    // changed.
    fn grow(&mut self, chunks: &mut Slab<Chunk>, size: usize) -> Result<(), AllocError>
        requires held { HasChunks chunks.old self.old }
        requires more { len_of self.old ≤ size }
        requires fits { size ≤ FILE_BYTES }
        ensures resized { OnOk result (TurnsInto chunks.old chunks.new self.old self.new
            (resized (bytes_of_file chunks.old self.old) size)) }
        ensures unchanged { OnErr result (self.new ≡ self.old) }
        ensures kept { OnErr result (Rekeys chunks.old chunks.new [] []) }
    {
        let more = chunks_of_size(size) - self.keys.as_slice().len();
        let zeros = zero_chunks(*self.keys.allocator(), more)?;
        chunks.reserve(more)?;
        self.keys.reserve(more)?;
        put_chunks(chunks, &mut self.keys, zeros);
        self.len = size;
        Ok(())
    }

    // Cuts the bytes to a size. What is after them in the last chunk is zeros from then on, and the
    // chunks after that are free.
    fn cut(&mut self, chunks: &mut Slab<Chunk>, size: usize)
        requires held { HasChunks chunks.old self.old }
        requires fewer { size ≤ len_of self.old }
        requires fits { size ≤ FILE_BYTES }
        ensures { TurnsInto chunks.old chunks.new self.old self.new
            (resized (bytes_of_file chunks.old self.old) size) }
    {
        free_chunks(chunks, &mut self.keys, chunks_of_size(size));
        clear_chunk(chunks, self.keys.as_slice(), size);
        self.len = size;
    }

    /// Gives back all chunks.
    pub fn free(&mut self, chunks: &mut Slab<Chunk>)
        requires { HasChunks chunks.old self.old }
        ensures { Rekeys chunks.old chunks.new (keys_of self.old) [] }
    {
        free_chunks(chunks, &mut self.keys, 0);
        self.len = 0;
    }
}

// How many of so many bytes there are from one of them on, at most so many.
fn count_from(len: usize, from: usize, most: usize) -> usize
    ensures count { result ≡ min most (len - from) }
    ensures fits { from + result < 2 ^ 64 }
{
    if from >= len {
        return 0;
    }
    let rest = len - from;
    if rest < most { rest } else { most }
}
