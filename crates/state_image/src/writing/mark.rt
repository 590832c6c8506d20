//! The mark of an image.
//!
//! **The mark tells the version.** The version says how long texts may be (`text_limit`), so an
//! image has no field for that. All after the mark is spelled alike in both versions.

ghost use Rattle.std.specs.Prelude.{◌≡◌};
ghost use Rattle.state_image.specs.rules.ProcessImage.{process_image_mark};
ghost use Rattle.state_image.specs.rules.Saving.{saved_of};
ghost use Rattle.state_image.specs.rules.Sinks.{Pushes};

use crate::sink::Sink;
use crate::writing::numbers::push_bytes;
use process::Process;
use wasi_abi::Version;

/// How many bytes a mark has.
pub(crate) const MARK_BYTES: usize = 8;

/// With it the images of a version begin.
pub fn process_image_mark(version: Version) -> [u8; MARK_BYTES]
    ensures { result ≡ process_image_mark version }
{
    match version {
        Version::One => *b"DWIMAGE1",
        Version::Two => *b"DWIMAGE2",
    }
}

/// The mark of the version of a process.
pub(crate) fn push_mark<S: Sink>(process: &Process, sink: &mut S) -> Result<(), S::Fault>
    ensures { Pushes S.takes sink.old (process_image_mark (saved_of process.now).version) result
        sink.new }
{
    push_bytes(&process_image_mark(process.host().version()), sink)
}
