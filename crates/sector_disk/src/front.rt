//! A prefix of a write.
ghost use Rattle.std.specs.Prelude.{◌≡◌, ◌≤◌, ◌+◌};
ghost use Rattle.sector_disk.specs.declared.sector.TheConstants.{SECTOR_SIZE};
ghost use Rattle.sector_disk.specs.rules.DiskImage.{front_over};
ghost use Rattle.sector_disk.specs.rules.Medium.{CountsUpTo, Passes};
ghost use Rattle.sector_disk.specs.rules.Trouble.{LeavesFront};

use crate::{Disk, SECTOR_SIZE};

/// Leaves a prefix of the bytes over what the sector holds.
pub(crate) fn leave_front(sector: &mut [u8; SECTOR_SIZE], bytes: &[u8; SECTOR_SIZE], front: usize)
    requires { front ≤ SECTOR_SIZE }
    ensures { sector.new ≡ front_over front bytes.now sector.old }
{
    sector[..front].copy_from_slice(&bytes[..front]);
}

/// Leaves a prefix of the bytes over what reads of the sector give, and tells whether the disk took
/// it. A prefix of no byte is written too.
pub(crate) fn write_front<D: Disk>(
    disk: &mut D,
    sector: u64,
    from: &[u8; SECTOR_SIZE],
    front: usize,
) -> bool
    requires { front ≤ SECTOR_SIZE }
    ensures leaves { LeavesFront front sector from.now result (D.medium disk.old)
        (D.medium disk.new) }
    ensures counts { CountsUpTo ((D.medium disk.old).unsynced + 1) (D.medium disk.old)
        (D.medium disk.new) }
    ensures passes { Passes (D.medium disk.old) (D.medium disk.new)
        (D.medium disk.new).crash_images }
{
    let mut bytes = [0; SECTOR_SIZE];
    if disk.read(sector, &mut bytes).is_err() {
        return false;
    }
    leave_front(&mut bytes, from, front);
    disk.write(sector, &bytes).is_ok()
}
