//! The mark of an image.

ghost use Rattle.std.specs.Prelude.{◌≡◌, ◌↔◌, IsTrue};
ghost use Rattle.state_image.specs.rules.ProcessImage.{process_image_mark, IsMarkedOtherwise};
ghost use Rattle.state_image.specs.rules.Reading.{ReadsField};
ghost use Rattle.state_image.specs.laws.Marks.{IsVersionOf};

use crate::reading::cursor::ProcessImageReader;
use crate::writing::{MARK_BYTES, process_image_mark};
use wasi_abi::Version;

/// The version of which an image begins with the mark.
pub fn read_mark(reader: &mut ProcessImageReader) -> Option<Version>
    ensures { ReadsField process_image_mark (λ version. Unit {0}) result reader.old reader.new }
{
    let mark = reader.bytes(MARK_BYTES)?;
    version_of(mark)
}

/// Whether an image begins with the mark of another version than this one.
pub fn is_marked_otherwise(version: Version, process_image: &[u8]) -> bool
    ensures { IsTrue result ↔ IsMarkedOtherwise version process_image.now }
{
    let mut reader = ProcessImageReader::new(process_image);
    match read_mark(&mut reader) {
        Some(marked) => marked != version,
        None => false,
    }
}

/// The version that has this mark.
fn version_of(mark: &[u8]) -> Option<Version>
    ensures { IsVersionOf mark.now result }
{
    if is_mark_of(Version::One, mark) {
        return Some(Version::One);
    }
    if is_mark_of(Version::Two, mark) {
        return Some(Version::Two);
    }
    None
}

/// Whether these bytes are the mark of this version.
fn is_mark_of(version: Version, mark: &[u8]) -> bool
    ensures { IsTrue result ↔ (mark.now ≡ process_image_mark version) }
{
    mark == process_image_mark(version).as_slice()
}
