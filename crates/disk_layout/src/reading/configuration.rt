//! A configuration from its bytes.

ghost use Rattle.std.specs.Prelude.{IfOk};
ghost use Rattle.disk_layout.specs.rules.Spelled.{SpellsConfig};

use crate::configuration::CONFIG_HEAD_BYTES;
use crate::reading::texts::texts_from;
use crate::u32_from;
use std::alloc::{AllocError, Global};
use wasi_abi::Config;

/// The configuration whose bytes these are; none where they are those of no configuration within
/// its limits. It fails only when out of memory.
pub fn config_from(alloc: Global, bytes: &[u8]) -> Result<Option<Config>, AllocError>
    ensures { IfOk result (λ o. SpellsConfig bytes.now o) }
{
    if bytes.len() < CONFIG_HEAD_BYTES {
        return Ok(None);
    }
    let Some((arguments, rest)) = texts_from(alloc, &bytes[CONFIG_HEAD_BYTES..])? else {
        return Ok(None);
    };
    let Some((environment, rest)) = texts_from(alloc, rest)? else {
        return Ok(None);
    };
    if rest.len() != 0 {
        return Ok(None);
    }
    let pages = u64::from(u32_from(bytes, 0));
    let files = u64::from(u32_from(bytes, 4));
    let journal = u64::from(u32_from(bytes, 8));
    match Config::new(pages, files, journal, arguments, environment) {
        Ok(config) => Ok(Some(config)),
        Err(_) => Ok(None),
    }
}
