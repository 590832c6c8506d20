//! The files of an image, made a tree again.

ghost use Rattle.std.specs.Prelude.{◌≡◌, ◌≢◌, ◌<◌, ◌^◌, ◌++◌, ℕ, List, IfOk, Err};
ghost use Rattle.file_tree.specs.rules.Files.{Files, IsFiles};
ghost use Rattle.state_image.specs.rules.ProcessImage.{files_bytes};
ghost use Rattle.state_image.specs.declared.restoring.fault.RestoreFault.TheVariants as fault;

use crate::reading::ProcessImageReader;
use crate::restoring::fault::RestoreFault;
use crate::restoring::list_readers::next_number;
use crate::restoring::parts::read_wholes;
use crate::restoring::tree::tree_of;
use file_tree::Tree;
use guest_memory::laws::are_bytes;
use std::alloc::Global;

/// The tree whose files are next in an image. It reads each byte once, and takes no more memory
/// than what was read wants.
pub fn restore_files(alloc: Global, reader: &mut ProcessImageReader) -> Result<Tree, RestoreFault>
    ensures made { IfOk result (λ tree. reader.old ≡ files_bytes tree ++ reader.new) }
    ensures files { IfOk result IsFiles }
    ensures next { IfOk result (λ tree. tree.next < 2 ^ 64) }
    ensures refused { result ≡ Err fault.NotAnImage → (fs : Files) (rest : List ℕ)
        → IsFiles fs → fs.next < 2 ^ 64 → reader.old ≢ files_bytes fs ++ rest }
{
    are_bytes(reader.rest());
    let Some(next) = next_number(reader) else {
        return Err(RestoreFault::NotAnImage);
    };
    let nodes = read_wholes(alloc, reader)?;
    tree_of(alloc, next, nodes.as_slice())
}
