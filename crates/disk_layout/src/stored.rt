//! The super on a disk, and the configuration and the module that it leads to.
//!
//! # Choices
//!
//! - The digest is compared before the configuration's bytes are looked at. Only bytes that some
//!   writer put there under their own digest are parsed then. What they spell is still checked
//!   against its limits and against the super's sectors.
//! - Whether the disk has all sectors is asked twice. As far as the module it is asked before that
//!   is read. As far as the journal's end it is asked once the super's numbers are known to be the
//!   configuration's. A super with a wrong number is `Damaged`, on a disk of any size that holds
//!   the module.

ghost use Rattle.std.specs.Prelude.{◌≡◌, ◌⊎◌, ◌↔◌, ◌+◌, ◌*◌, ◌<◌, ◌≤◌, ◌++◌, ℕ, [], ◌∷◌, length};
ghost use Rattle.std.specs.Prelude.{take, IsTrue, IfOk, IfErr, OnOk, IsErr};
ghost use Rattle.sha2.specs.Sha256.{sha256};
ghost use Rattle.sector_disk.specs.declared.sector.TheConstants.{SECTOR_SIZE};
ghost use Rattle.sector_disk.specs.rules.DiskImage.{DiskImage};
ghost use Rattle.sector_disk.specs.rules.Medium.{LeavesOnly, After, Follows, IsAllSynced};
ghost use Rattle.sector_disk.specs.rules.Medium.{CallsUpTo, CountsUpTo, PerformsCalls, FailsInside};
ghost use Rattle.sector_disk.specs.rules.Medium.{spare};
ghost use Rattle.sector_disk.specs.rules.Calls.{synced_writes};
ghost use Rattle.sector_disk.specs.rules.Run.{IsTornRun, IsWrittenRun};
ghost use Rattle.disk_layout.specs.rules.Sectors.{bytes_from, super_bytes};
ghost use Rattle.disk_layout.specs.rules.Stored.{OnlyReads, IsConsistent, Checks};
ghost use Rattle.disk_layout.specs.Stored.{SplitsContents};
ghost use Rattle.disk_layout.specs.rules.Stored.{FindsStored, HasItsLengths};

use crate::damage::Damage;
use crate::fault::LayoutFault;
use crate::fields::DIGEST_BYTES;
use crate::geometry::{Geometry, MODULE_PLACE, sectors_of};
use crate::superblock::Super;
use sector_disk::{Disk, DiskFault, SECTOR_SIZE, store_run};
use sha2::{Digest, Sha256};
use std::alloc::Global;
use wasm_syntax::ItemList;

/// What the super of a disk leads to: the bytes of the configuration and of the module.
#[derive(Debug, Drop)]
pub struct Stored {
    pub geometry: Geometry,
    pub config: ItemList<u8>,
    pub wasm: ItemList<u8>,
}

/// The SHA-256 of a configuration's bytes and a module's.
pub fn digest_of(config: &[u8], wasm: &[u8]) -> [u8; DIGEST_BYTES]
    ensures { result ≡ sha256 (config.now ++ wasm.now) }
{
    let mut hasher = Sha256::new();
    hasher.update(config);
    hasher.update(wasm);
    hasher.finalize()
}

fn is_digest_of(digest: &[u8; DIGEST_BYTES], config: &[u8], wasm: &[u8]) -> bool
    ensures { IsTrue result ↔ (digest.now ≡ sha256 (config.now ++ wasm.now)) }
{
    digest_of(config, wasm) == *digest
}

/// Writes the super and syncs.
pub fn write_super<D: Disk>(disk: &mut D, contents: &Super) -> Result<(), DiskFault>
    requires { 1 ≤ (D.medium disk.old).sectors }

    // A cut at any moment leaves some prefix of it, and all other sectors as they were.
    ensures any_moment { let sectors = super_bytes contents.now.geometry contents.now.digest ∷ [] in
        LeavesOnly (D.medium disk.old) (D.medium disk.new)
        (After (IsTornRun 0 sectors 1) (D.medium disk.old).crash_images) }
    ensures stored { let sectors = super_bytes contents.now.geometry contents.now.digest ∷ [] in
        OnOk result (Follows (IsWrittenRun 0 sectors 1) (D.medium disk.old).shows
        (D.medium disk.new).crash_images) }
    ensures all_synced { OnOk result (IsAllSynced (D.medium disk.new)) }
    ensures counts { CountsUpTo ((D.medium disk.old).unsynced + 1) (D.medium disk.old)
        (D.medium disk.new) }
    ensures calls { PerformsCalls (synced_writes 0 1) result (D.medium disk.old)
        (D.medium disk.new) }
    ensures cause { IsErr result → (spare (D.medium disk.old) < 1)
        ⊎ ((D.medium disk.old).faults < (D.medium disk.new).faults) }
    ensures which_fault { FailsInside result }
    ensures asks { CallsUpTo 2 (D.medium disk.old) (D.medium disk.new) }
{
    store_run(disk, 0, &[contents.sector()])
}

/// Reads the super, and the configuration and the module after it. It fails where a mark of the
/// super is missing (`NotAWorker`), and where the layout is none that is known (`Version`). It
/// fails where the super's lengths and sectors disagree (`Damaged` with `ModuleSectors`), and where
/// the disk ends before the module does (`TooSmall`). It fails where the digest differs (`Damaged`
/// with `ContentsDigest`). It also fails when out of memory.
pub fn read_super<D: Disk>(alloc: Global, disk: &mut D) -> Result<Stored, LayoutFault>
    ensures reads { OnlyReads (D.medium disk.old) (D.medium disk.new) }
    ensures finds { (image : DiskImage) → (D.medium disk.new).shows image
        → FindsStored (D.medium disk.old).sectors image result }
    ensures lengths { IfOk result HasItsLengths }
    ensures cause { (fault : DiskFault) → result ≡ Err (LayoutFault.Disk fault)
        → (D.medium disk.old).faults < (D.medium disk.new).faults }

    // It reads no sector twice.
    ensures asks { CallsUpTo (D.medium disk.old).sectors (D.medium disk.old) (D.medium disk.new) }
{
    let sectors = disk.sectors();
    if sectors == 0 {
        return Err(LayoutFault::NotAWorker);
    }
    let mut sector = [0; SECTOR_SIZE];
    if let Err(fault) = disk.read(0, &mut sector) {
        return Err(LayoutFault::Disk(fault));
    }
    let contents = check(&sector, sectors)?;
    let bytes = read_sectors(alloc, disk, MODULE_PLACE, contents.geometry.module_sectors)?;
    split(alloc, &contents, bytes.as_slice())
}

/// The super that a sector holds, if its numbers agree and the disk has room for what they name.
fn check(sector: &[u8; SECTOR_SIZE], sectors: u64) -> Result<Super, LayoutFault>
    ensures { Checks sectors sector.now result }
{
    let contents = Super::read(sector)?;
    if !is_consistent(&contents.geometry) {
        return Err(LayoutFault::Damaged(Damage::ModuleSectors));
    }
    if MODULE_PLACE + u64::from(contents.geometry.module_sectors) > sectors {
        return Err(LayoutFault::TooSmall);
    }
    Ok(contents)
}

fn is_consistent(geometry: &Geometry) -> bool
    ensures { IsTrue result ↔ IsConsistent geometry.now }
{
    let bytes = u64::from(geometry.config) + u64::from(geometry.wasm);
    u64::from(geometry.module_sectors) == sectors_of(bytes)
}

/// The bytes of so many sectors.
fn read_sectors<D: Disk>(
    alloc: Global,
    disk: &mut D,
    at: u64,
    count: u32,
) -> Result<Vec<u8>, LayoutFault>
    requires { at + count ≤ (D.medium disk.old).sectors }
    ensures reads { OnlyReads (D.medium disk.old) (D.medium disk.new) }
    ensures bytes { IfOk result (λ v. (image : DiskImage) → (D.medium disk.new).shows image
        → v.items ≡ bytes_from image at count) }
    ensures len { IfOk result (λ v. length v.items ≡ SECTOR_SIZE * count) }
    ensures cause { (fault : DiskFault) → result ≡ Err (LayoutFault.Disk fault)
        → (D.medium disk.old).faults < (D.medium disk.new).faults }
    ensures which_fault { IfErr result (λ e. e ≡ LayoutFault.Memory
        ⊎ ((fault : DiskFault) × (e ≡ LayoutFault.Disk fault))) }
    ensures asks { CallsUpTo count (D.medium disk.old) (D.medium disk.new) }
{
    let mut bytes = Vec::new(alloc);
    let mut sector = [0; SECTOR_SIZE];
    for i in 0..u64::from(count) {
        if let Err(fault) = disk.read(at + i, &mut sector) {
            return Err(LayoutFault::Disk(fault));
        }
        let Ok(()) = bytes.extend_from_slice(&sector) else {
            return Err(LayoutFault::Memory);
        };
    }
    Ok(bytes)
}

/// Configuration and module, if their digest is the super's.
fn split(alloc: Global, contents: &Super, bytes: &[u8]) -> Result<Stored, LayoutFault>
    requires { contents.now.geometry.config + contents.now.geometry.wasm ≤ length bytes.now }
    ensures { SplitsContents contents.now bytes.now result }
{
    let config_len = contents.geometry.config as usize;
    let end = config_len + contents.geometry.wasm as usize;
    let config = &bytes[..config_len];
    let wasm = &bytes[config_len..end];
    if !is_digest_of(&contents.digest, config, wasm) {
        return Err(LayoutFault::Damaged(Damage::ContentsDigest));
    }
    let Ok(config) = Vec::from_slice(alloc, config) else {
        return Err(LayoutFault::Memory);
    };
    let Ok(wasm) = Vec::from_slice(alloc, wasm) else {
        return Err(LayoutFault::Memory);
    };
    Ok(Stored {
        geometry: contents.geometry,
        config: ItemList::from_vec(config),
        wasm: ItemList::from_vec(wasm),
    })
}
