//! A file that becomes a disk: it is locked, and filled with zeros.
ghost use Rattle.std.specs.Prelude.{◌<◌, ◌≤◌, ◌⊎◌, ◌^◌, ◌*◌, ◌/◌, ℕ, true, IfErr, IsTrue, OnOk};
ghost use Rattle.sector_disk.specs.rules.DiskImage.{DiskImage};
ghost use Rattle.sector_disk.specs.rules.Open.{IsUnfit};

use crate::{DiskFile, NewFile, NewFiles, OpenCause, OpenFault, SECTOR_SIZE};

/// Takes the lock of a file for this handle.
pub(crate) fn lock<F: DiskFile>(file: &F) -> Result<(), OpenFault>
    ensures locked { OnOk result (IsTrue (F.known.locked file.now)) }
    ensures failed { IfErr result (λ why. IsTrue (F.known.failed file.now why)) }
{
    file.try_lock()?;
    Ok(())
}

/// Locks a new file, fills it with so many sectors of zeros, and makes it durable with its entry in
/// its folder.
pub(crate) fn fill_new_file<F: DiskFile, R: NewFiles<File = F>>(
    files: &R,
    new: &NewFile<'_>,
    file: &F,
    sectors: u64,
) -> Result<(), OpenFault>
    requires { sectors < 2 ^ 54 }
    ensures resized { OnOk result (IsTrue (F.known.resized file.now (sectors * SECTOR_SIZE))) }
    ensures locked { OnOk result (IsTrue (F.known.locked file.now)) }
    ensures failed { IfErr result (λ why. IsTrue (F.known.failed file.now why)
        ⊎ IsTrue ((R.known files.now).unsynced new.now.path.now why)) }
{
    lock(file)?;
    file.resize(sectors * SECTOR_SIZE as u64)?;
    fill(file, sectors)?;
    files.sync_entry(new)?;
    Ok(())
}

/// Locks a file that is a block device with so many sectors, and fills these.
pub(crate) fn take_device<F: DiskFile>(file: &F, sectors: u64) -> Result<(), OpenFault>
    requires { sectors < 2 ^ 54 }
    ensures device { OnOk result (IsTrue (F.known.device file.now true)) }
    ensures room { OnOk result ((bytes : ℕ) × (image : DiskImage)
        × IsTrue (F.known.measured file.now bytes image) × (sectors ≤ bytes / SECTOR_SIZE)) }
    ensures locked { OnOk result (IsTrue (F.known.locked file.now)) }
    ensures failed { IfErr result (λ why. IsTrue (F.known.failed file.now why)
        ⊎ IsUnfit F.known sectors file.now why) }
{
    if !file.is_block_device()? {
        return Err(OpenFault::Io(OpenCause::NoDevice));
    }
    lock(file)?;
    let (bytes, _) = file.measure()?;
    if bytes / (SECTOR_SIZE as u64) < sectors {
        return Err(OpenFault::Io(OpenCause::NoRoom));
    }
    fill_device(file, sectors)
}

/// Fills so many sectors of a block device.
fn fill_device<F: DiskFile>(file: &F, sectors: u64) -> Result<(), OpenFault>
    requires bound { sectors < 2 ^ 54 }
    requires device { IsTrue (F.known.device file.now true) }
    requires locked { IsTrue (F.known.locked file.now) }
    ensures { IfErr result (λ why. IsTrue (F.known.failed file.now why)) }
{
    fill(file, sectors)
}

/// Writes zeros to so many sectors, and makes these durable.
fn fill<F: DiskFile>(file: &F, sectors: u64) -> Result<(), OpenFault>
    requires { sectors < 2 ^ 54 }
    ensures { IfErr result (λ why. IsTrue (F.known.failed file.now why)) }
{
    for sector in 0..sectors {
        file.write_zeros(sector)?;
    }
    file.sync_whole()?;
    Ok(())
}
