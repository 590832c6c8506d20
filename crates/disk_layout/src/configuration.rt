//! The configuration as bytes.

ghost use Rattle.std.specs.Prelude.{◌≡◌, ◌≤◌, ◌++◌, length, IfOk, OnOk};
ghost use Rattle.std.specs.List.{AllByRecursion};
ghost use Rattle.wasi_abi.specs.declared.config.TheConstants.{MOST_TEXTS};
ghost use Rattle.wasi_abi.specs.rules.Configs.{IsShortText};
ghost use Rattle.wasi_abi.specs.rules.Layouts.{u16_bytes, u32_bytes};
ghost use Rattle.disk_layout.specs.rules.Places.{config_bytes, texts_bytes};

use crate::fields::{put_u16, put_u32};
use std::alloc::{AllocError, Global};
use wasi_abi::Config;
use wasm_syntax::ItemList;

/// Bytes of the numbers of a configuration, after which its texts are.
pub(crate) const CONFIG_HEAD_BYTES: usize = 12;

/// The bytes that a configuration has on a disk. It fails only when out of memory.
pub fn config_bytes_of(alloc: Global, config: &Config) -> Result<Vec<u8>, AllocError>
    ensures { IfOk result (λ v. v.items ≡ config_bytes config.now) }
{
    let mut bytes = Vec::new(alloc);
    push_u32(&mut bytes, config.pages())?;
    push_u32(&mut bytes, config.files())?;
    push_u32(&mut bytes, config.journal())?;
    push_texts(&mut bytes, config.arguments().as_slice())?;
    push_texts(&mut bytes, config.environment().as_slice())?;
    Ok(bytes)
}

/// Texts after their number, each after its length.
fn push_texts(bytes: &mut Vec<u8>, texts: &[ItemList<u8>]) -> Result<(), AllocError>
    requires few { length texts.now ≤ MOST_TEXTS }
    requires short { AllByRecursion IsShortText texts.now }
    ensures { OnOk result (bytes.new.items ≡ bytes.old.items ++ texts_bytes texts.now) }
{
    push_u32(bytes, texts.len() as u32)?;
    for text in texts {
        push_u16(bytes, text.len() as u16)?;
        bytes.extend_from_slice(text.as_slice())?;
    }
    Ok(())
}

fn push_u16(bytes: &mut Vec<u8>, number: u16) -> Result<(), AllocError>
    ensures { OnOk result (bytes.new.items ≡ bytes.old.items ++ u16_bytes number) }
{
    let mut field = [0; 2];
    put_u16(&mut field, 0, number);
    bytes.extend_from_slice(&field)
}

fn push_u32(bytes: &mut Vec<u8>, number: u32) -> Result<(), AllocError>
    ensures { OnOk result (bytes.new.items ≡ bytes.old.items ++ u32_bytes number) }
{
    let mut field = [0; 4];
    put_u32(&mut field, 0, number);
    bytes.extend_from_slice(&field)
}
