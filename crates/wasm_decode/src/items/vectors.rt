//! Items after a count (sections 5.1.3 and 5.2.4).

ghost use Rattle.std.specs.Prelude.{◌≡◌, is_some};
ghost use Rattle.std.specs.Str.{is_utf8};
ghost use Rattle.wasm_decode.specs.Items.Answers.{GivesItem, TakesItem};
ghost use Rattle.wasm_syntax.specs.laws.ReadingItems.{items_at, vector_at, vector_up_to_at};
ghost use Rattle.wasm_syntax.specs.laws.ReadingItems.{name_at, bytes_at};

use crate::items::decoder::Decoder;
use crate::items::fault::{ItemFault, ReadRefusal};
use crate::items::item::Item;
use crate::items::limit::ModuleLimit;
use std::alloc::Global;
use wasm_syntax::ItemList;

/// So many items.
fn items<T: Item>(
    alloc: Global,
    decoder: &mut Decoder,
    count: u32,
) -> Result<ItemList<T>, ItemFault>
    ensures { GivesItem result decoder.new (items_at T.at count decoder.old) }
{
    let mut items = ItemList::new(alloc);
    for _ in 0..count {
        let item = T::read(alloc, decoder)?;
        items.push(item)?;
    }
    Ok(items)
}

/// A count, and so many items. Room is taken item by item, whatever the count says.
#[tactic(auto, unfolding(wasm_syntax::specs::laws::ReadingItems::vector_at))]
pub fn vector<T: Item>(alloc: Global, decoder: &mut Decoder) -> Result<ItemList<T>, ItemFault>
    ensures { GivesItem result decoder.new (vector_at T.at decoder.old) }
{
    let count = decoder.u32()?;
    items(alloc, decoder, count)
}

/// The same of at most so many items: a greater count passes this limit, and its items aren't read.
#[tactic(auto, unfolding(wasm_syntax::specs::laws::ReadingItems::vector_up_to_at))]
pub fn vector_up_to<T: Item>(
    alloc: Global,
    decoder: &mut Decoder,
    most: usize,
    limit: ModuleLimit,
) -> Result<ItemList<T>, ItemFault>
    ensures { GivesItem result decoder.new (vector_up_to_at T.at most decoder.old) }
{
    let start = decoder.at();
    let count = decoder.u32()?;
    if count as usize > most {
        return Err(ItemFault::Refused(ReadRefusal::past(limit, start)));
    }
    items(alloc, decoder, count)
}

/// Whether the bytes are UTF-8.
fn is_text(bytes: &[u8]) -> bool
    ensures { result ≡ is_utf8 bytes.now }
{
    str::from_utf8(bytes).is_ok()
}

/// A length, and so many bytes, as a decoder of their own. Where they aren't whole the length is at
/// fault.
#[tactic(auto, unfolding(wasm_syntax::specs::laws::ReadingItems::bytes_at))]
pub fn take_sized<'a>(decoder: &mut Decoder<'a>) -> Result<Decoder<'a>, ReadRefusal>
    ensures { TakesItem result decoder.new (bytes_at decoder.old) }
{
    let start = decoder.at();
    let len = decoder.u32()?;
    decoder.part(len as usize, start)
}

/// Whether a name is at the front.
#[tactic(auto, unfolding(wasm_syntax::specs::laws::ReadingItems::name_at))]
pub fn skip_name(decoder: &mut Decoder) -> bool
    ensures { result ≡ is_some (name_at decoder.old) }
{
    match take_sized(decoder) {
        Ok(part) => is_text(part.into_bytes()),
        Err(_) => false,
    }
}

/// A length, and so many bytes, which are copied.
pub fn bytes(alloc: Global, decoder: &mut Decoder) -> Result<ItemList<u8>, ItemFault>
    ensures { GivesItem result decoder.new (bytes_at decoder.old) }
{
    let part = take_sized(decoder)?;
    Ok(ItemList::from_vec(Vec::from_slice(alloc, part.into_bytes())?))
}

/// A length, and so many bytes of UTF-8, which are copied.
#[tactic(auto, unfolding(wasm_syntax::specs::laws::ReadingItems::name_at))]
pub fn name(alloc: Global, decoder: &mut Decoder) -> Result<ItemList<u8>, ItemFault>
    ensures { GivesItem result decoder.new (name_at decoder.old) }
{
    let start = decoder.at();
    let bytes = take_sized(decoder)?.into_bytes();
    if !is_text(bytes) {
        return Err(ItemFault::Refused(ReadRefusal::Malformed(start)));
    }
    Ok(ItemList::from_vec(Vec::from_slice(alloc, bytes)?))
}
