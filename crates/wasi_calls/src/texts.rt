//! Arguments and environment: `args_get`, `args_sizes_get`, `environ_get`, `environ_sizes_get`.

ghost use Rattle.std.specs.Prelude.{◌≡◌, ◌+◌, ◌*◌, ◌≤◌, ◌^◌, length, OnOk, IfErr, Ok, Err};
ghost use Rattle.guest_memory.specs.rules.Memories.{with_bytes};
ghost use Rattle.wasi_abi.specs.declared.config.TheConstants.{MOST_TEXTS};
ghost use Rattle.wasi_calls_rules.specs.WasiStates.{WasiState as TheWasiState};
ghost use Rattle.wasi_calls_rules.specs.Checks.{Refuses};
ghost use Rattle.wasi_calls_rules.specs.Small.{with_zeros, pointers_to, texts_get, texts_sizes_get};
ghost use Rattle.wasi_calls.specs.FewTexts.{AreFewTexts};
ghost use Rattle.wasi_calls.specs.rules.Calls.{IsAsLarge};

use crate::memory::in_range;
use guest_memory::Memory;
use wasi_abi::Errno;
use wasm_syntax::ItemList;

/// Bytes of a pointer.
const POINTER_BYTES: u32 = 4;

/// `args_get` and `environ_get`: where each text begins, and the texts.
pub fn get(
    texts: &[ItemList<u8>],
    memory: &mut Memory,
    array: u32,
    buffer: u32,
) -> Result<(), Errno>
    requires few { AreFewTexts texts.now }
    ensures done { (h : TheWasiState) → OnOk result (texts_get texts.now array buffer
        memory.old.bytes h ≡ Ok (record { memory = memory.new.bytes; host = h })) }
    ensures refused { (h : TheWasiState) → IfErr result (λ e.
        texts_get texts.now array buffer memory.old.bytes h ≡ Err (Refuses e)) }
    ensures kept { IfErr result (λ _. memory.new ≡ memory.old) }
    ensures large { IsAsLarge memory.old memory.new }
{
    in_range(memory, array, POINTER_BYTES * texts.len() as u32)?;
    in_range(memory, buffer, size_of(texts))?;
    put_pointers(texts, memory, array, buffer);
    put_texts(texts, memory, buffer);
    Ok(())
}

/// `args_sizes_get` and `environ_sizes_get`: how many texts there are, and of how many bytes.
pub fn get_sizes(
    texts: &[ItemList<u8>],
    memory: &mut Memory,
    count: u32,
    size: u32,
) -> Result<(), Errno>
    requires few { AreFewTexts texts.now }
    ensures done { (h : TheWasiState) → OnOk result (texts_sizes_get texts.now count size
        memory.old.bytes h ≡ Ok (record { memory = memory.new.bytes; host = h })) }
    ensures refused { (h : TheWasiState) → IfErr result (λ e.
        texts_sizes_get texts.now count size memory.old.bytes h ≡ Err (Refuses e)) }
    ensures kept { IfErr result (λ _. memory.new ≡ memory.old) }
    ensures large { IsAsLarge memory.old memory.new }
{
    in_range(memory, count, 4)?;
    in_range(memory, size, 4)?;
    memory.store_u32(count, 0, texts.len() as u32).unwrap();
    memory.store_u32(size, 0, size_of(texts)).unwrap();
    Ok(())
}

/// How many bytes texts have, each with a zero byte after it.
fn size_of(texts: &[ItemList<u8>]) -> u32
    requires { AreFewTexts texts.now }
    ensures { result ≡ length (with_zeros texts.now) }
{
    let mut size = 0;
    for text in texts {
        size += text.len() as u32 + 1;
    }
    size
}

/// Puts into an array where each text begins, the first one at `buffer`.
fn put_pointers(texts: &[ItemList<u8>], memory: &mut Memory, array: u32, buffer: u32)
    requires few { length texts.now ≤ MOST_TEXTS }
    requires room { array + 4 * length texts.now ≤ length memory.old.bytes }
    requires inside { buffer + length (with_zeros texts.now) ≤ 2 ^ 32 }
    ensures put { memory.new ≡ with_bytes array (pointers_to buffer texts.now) memory.old }
    ensures large { IsAsLarge memory.old memory.new }
{
    let mut offset = 0;
    let mut begin = u64::from(buffer);
    for text in texts {
        memory.store_u32(array, offset, begin as u32).unwrap();
        offset += POINTER_BYTES;
        begin += text.len() as u64 + 1;
    }
}

/// Puts the texts one after another, each with a zero byte after it.
fn put_texts(texts: &[ItemList<u8>], memory: &mut Memory, buffer: u32)
    requires room { buffer + length (with_zeros texts.now) ≤ length memory.old.bytes }
    requires inside { length memory.old.bytes ≤ 2 ^ 32 }
    ensures put { memory.new ≡ with_bytes buffer (with_zeros texts.now) memory.old }
    ensures large { IsAsLarge memory.old memory.new }
{
    let mut begin = u64::from(buffer);
    for text in texts {
        let end = begin + text.len() as u64;
        memory.write(begin as u32, text.as_slice()).unwrap();
        memory.write(end as u32, &[0]).unwrap();
        begin = end + 1;
    }
}
