//! A configuration, copied.

ghost use Rattle.std.specs.Prelude.{◌≡◌, IfOk};
ghost use Rattle.std.specs.List.{AllByRecursion};
ghost use Rattle.wasi_abi.specs.rules.Answers.{AreBytes};
ghost use Rattle.wasi_abi.specs.rules.Configs.{AreSettingsWithinLimits};
ghost use Rattle.wasi_calls_rules.specs.laws.Laws.{IsOfBytes};
ghost use Rattle.process_rules.specs.Processes.{host_of};

use std::alloc::{AllocError, Global};
use wasi_abi::Config;
use wasm_syntax::ItemList;

/// Another configuration of the same settings. It fails only when out of memory.
pub(crate) fn copy_config(alloc: Global, config: &Config) -> Result<Config, AllocError>
    ensures copied { IfOk result (λ copy. copy ≡ config.now) }
    ensures within { IfOk result (λ _. AreSettingsWithinLimits config.now) }
    ensures texts { IfOk result (λ _. IsOfBytes (host_of config.now)) }
{
    let pages = u64::from(config.pages());
    let files = u64::from(config.files());
    let journal = u64::from(config.journal());
    let arguments = copy_texts(alloc, config.arguments().as_slice())?;
    let environment = copy_texts(alloc, config.environment().as_slice())?;
    match Config::new(pages, files, journal, arguments, environment) {
        Ok(copy) => Ok(copy),
        Err(_) => unreachable!(),
    }
}

/// The same texts, in memory of their own.
fn copy_texts(alloc: Global, texts: &[ItemList<u8>]) -> Result<ItemList<ItemList<u8>>, AllocError>
    ensures copied { IfOk result (λ copies. copies ≡ texts.now) }
    ensures bytes { IfOk result (λ _. AllByRecursion AreBytes texts.now) }
{
    let mut copies = ItemList::new(alloc);
    for text in texts {
        let copy = copy_text(alloc, text.as_slice())?;
        copies.push(copy)?;
    }
    Ok(copies)
}

/// The same text, in memory of its own.
pub(crate) fn copy_text(alloc: Global, text: &[u8]) -> Result<ItemList<u8>, AllocError>
    ensures copied { IfOk result (λ copy. copy ≡ text.now) }
    ensures bytes { IfOk result (λ _. AreBytes text.now) }
{
    Ok(ItemList::from_vec(Vec::from_slice(alloc, text)?))
}
