//! The first sectors of a disk, copied onto another disk.
//!
//! **The first sector is copied last**, between two syncs. A copy that is cut off has at most a
//! part of that sector.
ghost use Rattle.std.specs.Prelude.{◌≡◌, ◌+◌, ◌≤◌, IfErr, OnOk};
ghost use Rattle.sector_disk.specs.rules.Copying.{CopiesRun, FailsToCopy, IsCopied, WasOnlyRead};
ghost use Rattle.sector_disk.specs.rules.Copying.{SyncsCopy, LeavesFrontOrCopy, copying_writes};
ghost use Rattle.sector_disk.specs.rules.Medium.{CallsUpTo, CountsUpTo, IsAllSynced, PerformsCalls};

use crate::{Disk, DiskFault, SECTOR_SIZE};

/// Why a copy wasn't made.
#[derive(Clone, Copy, Debug, PartialEq, Eq)]
pub enum CopyFault {
    /// The copy has no sectors, or more than the original.
    Sizes,
    /// A read of the original failed.
    Original(DiskFault),
    /// A write or a sync of the copy failed.
    Copy(DiskFault),
}

/// Copies so many sectors, the first of them at `at`, in rising order. It ends at the first error.
fn copy_run<O: Disk, C: Disk>(
    original: &mut O,
    copy: &mut C,
    at: u64,
    count: u64,
) -> Result<(), CopyFault>
    requires there { at + count ≤ (O.medium original.old).sectors }
    requires within { at + count ≤ (C.medium copy.old).sectors }
    ensures { CopiesRun at count result (O.medium original.old) (O.medium original.new)
        (C.medium copy.old) (C.medium copy.new) }
{
    for k in 0..count {
        let mut bytes = [0; SECTOR_SIZE];
        if let Err(fault) = original.read(at + k, &mut bytes) {
            return Err(CopyFault::Original(fault));
        }
        if let Err(fault) = copy.write(at + k, &bytes) {
            return Err(CopyFault::Copy(fault));
        }
    }
    Ok(())
}

/// Syncs a copy.
fn sync_copy<C: Disk>(copy: &mut C) -> Result<(), CopyFault>
    ensures { SyncsCopy result (C.medium copy.old) (C.medium copy.new) }
{
    copy.sync().map_err(CopyFault::Copy)
}

/// Copies as many of the original's sectors as the copy has, from the first one on. The original
/// is only read. It ends at the first error.
pub fn copy_disk<O: Disk, C: Disk>(original: &mut O, copy: &mut C) -> Result<(), CopyFault>
    // Once it has answered Ok, each cut leaves the sectors that the original shows.
    ensures copied { OnOk result (IsCopied (O.medium original.new) (C.medium copy.new)) }
    ensures all_synced { OnOk result (IsAllSynced (C.medium copy.new)) }

    // Of a copy whose first sector was zeros, a cut at any moment leaves a front of that sector, or
    // the whole copy.
    ensures any_moment { LeavesFrontOrCopy (O.medium original.new) (C.medium copy.old)
        (C.medium copy.new) }
    ensures only_read { WasOnlyRead (C.medium copy.old).sectors (O.medium original.old)
        (O.medium original.new) }

    // Its writes and syncs in this order; after an error these are begun.
    ensures calls { PerformsCalls (copying_writes (C.medium copy.old).sectors) result
        (C.medium copy.old) (C.medium copy.new) }
    ensures counts { CountsUpTo ((C.medium copy.old).unsynced + (C.medium copy.old).sectors)
        (C.medium copy.old) (C.medium copy.new) }
    ensures asks { CallsUpTo ((C.medium copy.old).sectors + 2) (C.medium copy.old)
        (C.medium copy.new) }
    ensures cause { IfErr result (FailsToCopy (O.medium original.old) (O.medium original.new)
        (C.medium copy.old) (C.medium copy.new)) }
    ensures untouched { IfErr result (λ fault. fault ≡ CopyFault.Sizes
        → (original.new ≡ original.old) × (copy.new ≡ copy.old)) }
{
    let sectors = copy.sectors();
    if sectors == 0 || original.sectors() < sectors {
        return Err(CopyFault::Sizes);
    }
    copy_run(original, copy, 1, sectors - 1)?;
    sync_copy(copy)?;
    copy_run(original, copy, 0, 1)?;
    sync_copy(copy)
}
