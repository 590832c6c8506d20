//! A worker's disk, laid out anew.

ghost use Rattle.std.specs.Prelude.{◌≡◌, ◌≢◌, ◌⊎◌, ◌+◌, ◌<◌, ◌≤◌, ◌^◌, IfErr, OnOk, length, max};
ghost use Rattle.wasm_syntax.specs.declared.module.Module.{Module};
ghost use Rattle.wasi_abi.specs.rules.Configs.{Settings};
ghost use Rattle.sector_disk.specs.rules.Medium.{CallsUpTo, IsAllSynced, PerformsCalls, Passes};
ghost use Rattle.sector_disk.specs.rules.Medium.{CountsUpTo};
ghost use Rattle.disk_layout.specs.rules.Places.{config_bytes, geometry_of, rounded_up};
ghost use Rattle.disk_layout.specs.rules.Places.{total_sectors};
ghost use Rattle.disk_layout.specs.rules.Unsynced.{most_unsynced};
ghost use Rattle.state_image.specs.rules.ProcessImage.{process_image};
ghost use Rattle.state_image.specs.rules.Saving.{saved_of};
ghost use Rattle.worker_store.specs.rules.Savepoints.{Savepoint, BeginsAtPoint, LeavesAll};
ghost use Rattle.worker_store.specs.rules.Creations.{LaysOutDisk, LeavesBlankOrFirst, IsFirstPoint};
ghost use Rattle.worker_store.specs.rules.Creations.{CreationFails, creation_calls};

use crate::contents::lay_contents;
use crate::fault::StoreFault;
use crate::saving::write_snapshot;
use crate::store::WorkerStore;
use disk_layout::{Geometry, LayoutFault, Super, config_bytes_of, digest_of, write_super};
use journal::Journal;
use process::Process;
use sector_disk::Disk;
use snapshot::Writing;
use std::alloc::Global;
use wasi_abi::Config;

/// Lays a disk out for a worker of this configuration and the bytes of this module, that begins as
/// this process. A disk with too few sectors is refused before anything is written, and so is out
/// of memory told. This is written, in this order:
///
/// - zeros over the super, and a sync
/// - configuration and module, zeros over the heads and over the journal, and a sync
/// - the image of the process, a sync, its head, and a sync
/// - the super, and a sync
pub fn lay_out<D: Disk>(
    alloc: Global,
    disk: &mut D,
    config: &Config,
    wasm: &[u8],
    process: &Process,
) -> Result<WorkerStore, StoreFault>
    requires { length wasm.now < 2 ^ 32 }
    ensures lays_out { LaysOutDisk config.now wasm.now process.now result (D.medium disk.old)
        (D.medium disk.new) }
    ensures too_small { (D.medium disk.old).sectors
        < total_sectors (geometry_of config.now (length wasm.now))
        → (result ≡ Err (StoreFault.Layout LayoutFault.TooSmall)) × (disk.new ≡ disk.old) }
    ensures memory { IfErr result (λ e. e ≡ StoreFault.Memory → disk.new ≡ disk.old) }
{
    let geometry = Geometry::of(config, wasm.len() as u32);
    if disk.sectors() < geometry.total_sectors() {
        return Err(StoreFault::Layout(LayoutFault::TooSmall));
    }
    let config = config_bytes_of(alloc, config)?;
    lay_worker(disk, &geometry, config.as_slice(), wasm, process)?;
    Ok(WorkerStore {
        geometry,
        journal: Journal::fresh(alloc, process.version(), 1),
    })
}

/// Lays out all of the disk, the super last.
fn lay_worker<D: Disk>(
    disk: &mut D,
    geometry: &Geometry,
    config: &[u8],
    wasm: &[u8],
    process: &Process,
) -> Result<(), StoreFault>
    requires few { length config.now + length wasm.now ≤ 2 ^ 62 }
    requires module_sectors { geometry.now.module_sectors
        ≡ rounded_up (length config.now + length wasm.now) }
    requires room { total_sectors geometry.now ≤ (D.medium disk.old).sectors }
    ensures any_moment { (settings : Settings) → config.now ≡ config_bytes settings
        → geometry.now ≡ geometry_of settings (length wasm.now)
        → LeavesBlankOrFirst settings wasm.now process.now (D.medium disk.old) (D.medium disk.new) }
    ensures done { (settings : Settings) → config.now ≡ config_bytes settings
        → geometry.now ≡ geometry_of settings (length wasm.now)
        → OnOk result ((m : Module) (point : Savepoint m settings)
        → IsFirstPoint wasm.now process.now point
        → LeavesAll (D.medium disk.new) (BeginsAtPoint point)) }
    ensures all_synced { OnOk result (IsAllSynced (D.medium disk.new)) }
    ensures passes { Passes (D.medium disk.old) (D.medium disk.new) (λ _. Unit {0}) }
    ensures no_memory { IfErr result (λ e. e ≢ StoreFault.Memory) }
    ensures calls { PerformsCalls (creation_calls geometry.now
        (length (process_image (saved_of process.now)))) result (D.medium disk.old)
        (D.medium disk.new) }
    ensures cause { IfErr result (λ e.
        CreationFails geometry.now process.now (D.medium disk.old) (D.medium disk.new) e) }
    ensures asks { CallsUpTo ((D.medium disk.old).sectors + 9) (D.medium disk.old)
        (D.medium disk.new) }
    ensures counts { CountsUpTo
        (max ((D.medium disk.old).unsynced + 1) (most_unsynced geometry.now))
        (D.medium disk.old) (D.medium disk.new) }
{
    lay_contents(disk, geometry, config, wasm)?;
    write_snapshot(disk, geometry, 1, Writing::Whole, process, None)?;
    let digest = digest_of(config, wasm);
    let contents = Super {
        geometry: *geometry,
        digest,
    };
    write_super(disk, &contents)?;
    Ok(())
}
