//! Bytes in chunks of one size. The chunks of all files are in one slab, and a file has the keys of
//! its own.
//!
//! # Choices
//!
//! - **A file's bytes lie in chunks of 4,096 bytes**, each a vector made once at its full length.
//!   More bytes move none of those that are there: only the list of their keys is copied when it
//!   grows, 256 entries at most. A place is found by a division. A box of an array would be made on
//!   the stack first, and then copied.
//! - **All chunks of a tree are in one slab**, and a chunk that is free again is the next one that
//!   a file gets. One invariant says that keys are there, differ and leave none over
//!   (`KeepsFiles`). Each change of it is a change of one file's keys (`Rekeys`), from which all
//!   other files have their chunks as before. The number of chunks is what the slab holds.

ghost use Rattle.std.specs.Prelude.{◌≡◌, ◌+◌, ◌*◌, ◌-◌, ◌<◌, ◌≤◌, ◌^◌, ◌%◌, ◌++◌, ◌∷◌, [], length};
ghost use Rattle.std.specs.Prelude.{take, drop, replicate, IfOk};
ghost use Rattle.std.specs.List.{concat};
ghost use Rattle.std.specs.Vec.{vec_len, vec_capacity};
ghost use Rattle.slab.specs.Slab.{HasRoomFor, slab_len};
ghost use Rattle.file_tree.specs.declared.limits.TheConstants.{CHUNK_BYTES};
ghost use Rattle.file_tree.specs.rules.Chunks.{chunks_for};
ghost use Rattle.file_tree.specs.Store.Bodies.{AreFullAt, Rekeys};
ghost use Rattle.file_tree.specs.Store.Chunked.{overlaid};
ghost use Rattle.file_tree.specs.Store.Stored.{stored};

use crate::limits::CHUNK_BYTES;
use slab::Slab;
use std::alloc::{AllocError, Global};
use std::marker::Model;

/// A chunk, which contracts see as its bytes. It has all of them from the first on, and they stay
/// where they are.
#[derive(Debug, Drop)]
pub struct Chunk {
    items: Vec<u8>,
}

impl Model for Chunk {
    ghost use Rattle.std.specs.Prelude.{◌≡◌, ℕ, List, length};
    ghost use Rattle.file_tree.specs.declared.limits.TheConstants.{CHUNK_BYTES};

    ghost Value = { List ℕ };

    ghost view = { λ c. c.items.items };

    ghost invariant = { λ c. length c.items.items ≡ CHUNK_BYTES };
}

impl Chunk {
    /// A chunk of zeros. It fails only when out of memory.
    pub fn zeros(alloc: Global) -> Result<Self, AllocError>
        ensures { IfOk result (λ c. c ≡ replicate CHUNK_BYTES 0) }
    {
        Ok(Chunk {
            items: vec![in alloc; 0; CHUNK_BYTES]?,
        })
    }

    /// All bytes.
    pub fn as_slice(&self) -> &[u8]
        ensures bytes { result.now ≡ self.now }
        ensures full { length self.now ≡ CHUNK_BYTES }
    {
        self.items.as_slice()
    }

    /// Puts bytes in the place of others.
    pub fn write(&mut self, from: usize, bytes: &[u8])
        requires { from + length bytes.now ≤ CHUNK_BYTES }
        ensures { self.new ≡ overlaid self.old from bytes.now }
    {
        self.put(from, bytes);
    }

    fn put(&mut self, from: usize, bytes: &[u8])
        requires { from + length bytes.now ≤ CHUNK_BYTES }
        ensures put { self.new ≡ take from self.old
            ++ (bytes.now ++ drop (from + length bytes.now) self.old) }
        ensures full { length self.old ≡ CHUNK_BYTES }
    {
        self.items[from..from + bytes.len()].copy_from_slice(bytes);
    }

    /// Makes all bytes from one on zeros.
    pub fn clear(&mut self, from: usize)
        requires { from ≤ CHUNK_BYTES }
        ensures { self.new ≡ overlaid self.old from (replicate (CHUNK_BYTES - from) 0) }
    {
        self.put_zeros(from);
    }

    fn put_zeros(&mut self, from: usize)
        requires { from ≤ CHUNK_BYTES }
        ensures put { self.new ≡ take from self.old ++ replicate (CHUNK_BYTES - from) 0 }
        ensures full { length self.old ≡ CHUNK_BYTES }
    {
        zero(&mut self.items[from..]);
    }
}

// Makes all bytes zeros.
fn zero(items: &mut [u8])
    ensures { items.new ≡ replicate (length items.old) 0 }
{
    items.fill(0);
}

/// So many chunks of zeros. It fails only when out of memory.
pub fn zero_chunks(alloc: Global, count: usize) -> Result<Vec<Chunk>, AllocError>
    ensures { IfOk result (λ chunks. chunks.items ≡ replicate count (replicate CHUNK_BYTES 0)) }
{
    let mut chunks = Vec::with_capacity(alloc, count)?;
    for _ in 0..count {
        chunks.push(Chunk::zeros(alloc)?)?;
    }
    Ok(chunks)
}

/// How many chunks a file of so many bytes has.
pub fn chunks_of_size(size: usize) -> usize
    requires { size + CHUNK_BYTES ≤ 2 ^ 64 }
    ensures { result ≡ chunks_for size }
{
    (size + (CHUNK_BYTES - 1)) / CHUNK_BYTES
}

// How many of some bytes from a place on lie in the chunk of the first.
fn piece(from: usize, most: usize) -> usize
    ensures some { 0 < most → 0 < result }
    ensures most { result ≤ most }
    ensures chunk { from % CHUNK_BYTES + result ≤ CHUNK_BYTES }
{
    let room = CHUNK_BYTES - from % CHUNK_BYTES;
    if most < room { most } else { room }
}

// Puts as many of these bytes in the place of others as lie in the chunk of the first, and gives
// how many.
fn write_piece(chunks: &mut Slab<Chunk>, keys: &[usize], from: usize, bytes: &[u8]) -> usize
    requires full { AreFullAt chunks.old keys.now }
    requires some { 0 < length bytes.now }
    requires within { from + length bytes.now ≤ length keys.now * CHUNK_BYTES }
    ensures some { 0 < result }
    ensures most { result ≤ length bytes.now }
    ensures full { AreFullAt chunks.new keys.now }
    ensures written { concat (stored chunks.new keys.now)
        ≡ overlaid (concat (stored chunks.old keys.now)) from (take result bytes.now) }
    ensures others { Rekeys chunks.old chunks.new keys.now keys.now }
{
    let count = piece(from, bytes.len());
    let key = keys[from / CHUNK_BYTES];
    chunks[key].write(from % CHUNK_BYTES, &bytes[..count]);
    count
}

/// Puts bytes in the place of others.
pub fn write_chunks(chunks: &mut Slab<Chunk>, keys: &[usize], from: usize, bytes: &[u8])
    requires full { AreFullAt chunks.old keys.now }
    requires fits { from + length bytes.now < 2 ^ 64 }
    requires within { from + length bytes.now ≤ length keys.now * CHUNK_BYTES }
    ensures full { AreFullAt chunks.new keys.now }
    ensures written { concat (stored chunks.new keys.now)
        ≡ overlaid (concat (stored chunks.old keys.now)) from bytes.now }
    ensures others { Rekeys chunks.old chunks.new keys.now keys.now }
{
    let mut done = 0;
    while done < bytes.len() {
        done += write_piece(chunks, keys, from + done, &bytes[done..]);
    }
}

/// Makes all bytes from one on zeros, in the chunk in which it lies.
pub fn clear_chunk(chunks: &mut Slab<Chunk>, keys: &[usize], from: usize)
    requires full { AreFullAt chunks.old keys.now }
    requires within { from ≤ length keys.now * CHUNK_BYTES }
    requires last { length keys.now * CHUNK_BYTES < from + CHUNK_BYTES }
    ensures full { AreFullAt chunks.new keys.now }
    ensures cleared { concat (stored chunks.new keys.now)
        ≡ take from (concat (stored chunks.old keys.now))
        ++ replicate (length keys.now * CHUNK_BYTES - from) 0 }
    ensures others { Rekeys chunks.old chunks.new keys.now keys.now }
{
    let start = from % CHUNK_BYTES;
    if start > 0 {
        let key = keys[from / CHUNK_BYTES];
        chunks[key].clear(start);
    }
}

// Puts bytes from a place on into `into`, as many as lie in the chunk of the first and fit, and
// gives how many.
fn read_piece(chunks: &Slab<Chunk>, keys: &[usize], from: usize, into: &mut [u8]) -> usize
    requires full { AreFullAt chunks.now keys.now }
    requires some { 0 < length into.old }
    requires within { from + length into.old ≤ length keys.now * CHUNK_BYTES }
    ensures some { 0 < result }
    ensures most { result ≤ length into.old }
    ensures bytes { into.new ≡ take result (drop from (concat (stored chunks.now keys.now)))
        ++ drop result into.old }
{
    let count = piece(from, into.len());
    let start = from % CHUNK_BYTES;
    let key = keys[from / CHUNK_BYTES];
    let bytes = chunks[key].as_slice();
    into[..count].copy_from_slice(&bytes[start..start + count]);
    count
}

/// Puts the bytes from a place on into `into`, which they fill.
pub fn read_chunks(chunks: &Slab<Chunk>, keys: &[usize], from: usize, into: &mut [u8])
    requires full { AreFullAt chunks.now keys.now }
    requires fits { from + length into.old < 2 ^ 64 }
    requires within { from + length into.old ≤ length keys.now * CHUNK_BYTES }
    ensures { into.new
        ≡ take (length into.old) (drop from (concat (stored chunks.now keys.now))) }
{
    let mut done = 0;
    while done < into.len() {
        done += read_piece(chunks, keys, from + done, &mut into[done..]);
    }
}

// Puts a chunk after the others of a file. There is room for it, and for its key.
fn put_chunk(chunks: &mut Slab<Chunk>, keys: &mut Vec<usize>, chunk: Chunk)
    requires full { AreFullAt chunks.old keys.old.items }
    requires whole { length chunk ≡ CHUNK_BYTES }
    requires room { HasRoomFor chunks.old 1 }
    requires space { vec_len keys.old < vec_capacity keys.old }
    ensures full { AreFullAt chunks.new keys.new.items }
    ensures put { stored chunks.new keys.new.items
        ≡ stored chunks.old keys.old.items ++ chunk ∷ [] }
    ensures others { Rekeys chunks.old chunks.new keys.old.items keys.new.items }
    ensures count { slab_len chunks.new ≡ slab_len chunks.old + 1 }
    ensures room { chunks.new.capacity ≡ chunks.old.capacity }
    ensures len { vec_len keys.new ≡ vec_len keys.old + 1 }
    ensures space { vec_capacity keys.new ≡ vec_capacity keys.old }
{
    let key = chunks.insert_reserved(chunk);
    keys.push_reserved(key);
}

/// Puts chunks of zeros after the others of a file. There is room for them, and for their keys.
pub fn put_chunks(chunks: &mut Slab<Chunk>, keys: &mut Vec<usize>, mut zeros: Vec<Chunk>)
    requires full { AreFullAt chunks.old keys.old.items }
    requires zeros { zeros.items
        ≡ replicate (length zeros.items) (replicate CHUNK_BYTES 0) }
    requires room { HasRoomFor chunks.old (length zeros.items) }
    requires space { vec_len keys.old + length zeros.items ≤ vec_capacity keys.old }
    ensures full { AreFullAt chunks.new keys.new.items }
    ensures put { stored chunks.new keys.new.items
        ≡ stored chunks.old keys.old.items ++ zeros.items }
    ensures others { Rekeys chunks.old chunks.new keys.old.items keys.new.items }
{
    while let Some(chunk) = zeros.pop() {
        put_chunk(chunks, keys, chunk);
    }
}

// Takes out the last chunk of a file. The slab gives its key to the next one.
fn free_last(chunks: &mut Slab<Chunk>, keys: &mut Vec<usize>)
    requires full { AreFullAt chunks.old keys.old.items }
    requires some { 0 < length keys.old.items }
    ensures full { AreFullAt chunks.new keys.new.items }
    ensures kept { stored chunks.new keys.new.items
        ≡ take (length keys.old.items - 1) (stored chunks.old keys.old.items) }
    ensures count { length keys.new.items + 1 ≡ length keys.old.items }
    ensures others { Rekeys chunks.old chunks.new keys.old.items keys.new.items }
{
    let last = keys.as_slice().len() - 1;
    let key = keys.remove(last);
    let _chunk = chunks.remove(key);
}

/// Takes out the last chunks of a file, but for so many.
pub fn free_chunks(chunks: &mut Slab<Chunk>, keys: &mut Vec<usize>, count: usize)
    requires full { AreFullAt chunks.old keys.old.items }
    requires fewer { count ≤ length keys.old.items }
    ensures full { AreFullAt chunks.new keys.new.items }
    ensures kept { stored chunks.new keys.new.items
        ≡ take count (stored chunks.old keys.old.items) }
    ensures count { length keys.new.items ≡ count }
    ensures others { Rekeys chunks.old chunks.new keys.old.items keys.new.items }
{
    while keys.as_slice().len() > count {
        free_last(chunks, keys);
    }
}
