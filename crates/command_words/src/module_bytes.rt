//! A module's bytes.
//!
//! # Promises
//!
//! - `read_module`: the bytes of a reader, where they are known, up to one more than the longest
//!   module has. `say_line`, `report`: the line was written and the status is the one given, or a
//!   write has failed and it is `Unwritten` (`SaysLine`). `report_output` says after a command that
//!   its output couldn't be written (`SaysOfOutput`). `report_words`: help leaves the error output
//!   as it was, and a mistake the output. A tip of `clap` to write a number below 0 after `--`
//!   is left out.

ghost use Rattle.std.specs.Prelude.{◌≡◌, ◌+◌, IfOk, IfSome, take};
ghost use Rattle.wasm_syntax.specs.declared.limits.TheConstants.{MODULE_BYTES};

use std::alloc::Global;
use std::io::{self, Read};
use wasm_syntax::limits::MODULE_BYTES;

/// How many bytes are read: as many as the longest module has, and one more, by which a longer one
/// is known.
const READ_BYTES: u64 = MODULE_BYTES as u64 + 1;

/// The bytes of a reader, up to one more than the longest module has. So a longer one is refused.
pub fn read_module<R: Read + Drop>(alloc: Global, reader: R) -> io::Result<Vec<u8>>
    ensures { IfOk result (λ wasm. IfSome (R.remaining reader)
        (λ bytes. wasm.items ≡ take (MODULE_BYTES + 1) bytes)) }
{
    let mut wasm = Vec::new(alloc);
    reader.take(READ_BYTES).read_to_end(&mut wasm)?;
    Ok(wasm)
}
