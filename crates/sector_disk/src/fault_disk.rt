//! A disk that stops or fails at a call that it is told.
ghost use Rattle.std.specs.Prelude.{◌≡◌, ◌+◌, ◌<◌, ◌≤◌, IsTrue, IfSome, IfNone, length, false, ℕ};
ghost use Rattle.std.specs.Prelude.{Bool};
ghost use Rattle.sector_disk.specs.rules.Trouble.{is_met};

use crate::front::write_front;
use crate::log::Log;
use crate::trouble::Trouble;
use crate::{Disk, DiskFault, FaultPoint, SECTOR_SIZE};

/// Hands calls on to the disk below, and counts them. It stops at one that it is told. That call
/// and each later one is `Cut`, and none of them reaches the disk below. But of a stopped write the
/// given prefix is left there. Or it fails one that it is told (`Io`, and of a write the given
/// prefix is left), and later calls work.
#[derive(Drop)]
pub struct FaultDisk<D> {
    inner: D,
    stop: Option<FaultPoint>,
    fail: Option<FaultPoint>,
    reads: u64,
    writes: u64,
    syncs: u64,
    has_torn_front: bool,
    /// One item for each trouble. Only clauses read it.
    faults: Log<(), ()>,
    ghost was_met: { 0 < length faults.items
        → IsTrue (is_met stop fail (record { reads = reads; writes = writes; syncs = syncs })) },
}

impl<D> FaultDisk<D> {
    ghost use Rattle.sector_disk.specs.rules.FaultDisk.{disk_below, stop_of, fail_of};
    ghost use Rattle.sector_disk.specs.rules.FaultDisk.{call_counts_of, trouble_of, torn_front_of};

    /// It stops at the one call, and fails at the other. Where both are the same call, it stops.
    pub fn new(inner: D, stop: Option<FaultPoint>, fail: Option<FaultPoint>) -> Self
        ensures below { disk_below result ≡ inner }
        ensures stop { stop_of result ≡ stop }
        ensures fail { fail_of result ≡ fail }
        ensures calls { call_counts_of result ≡ record { reads = 0; writes = 0; syncs = 0 } }
        ensures torn_front { torn_front_of result ≡ false }
    {
        FaultDisk {
            inner,
            stop,
            fail,
            reads: 0,
            writes: 0,
            syncs: 0,
            has_torn_front: false,
            faults: Log::new(),
        }
    }

    /// How many reads, writes and syncs have begun. Each count stays at the greatest number of 64
    /// bits.
    pub fn calls(&self) -> (u64, u64, u64)
        ensures { result ≡ (
          (call_counts_of self.now).reads,
          (call_counts_of self.now).writes,
          (call_counts_of self.now).syncs,
        ) }
    {
        (self.reads, self.writes, self.syncs)
    }

    /// Whether it stopped at a write that the disk below took a prefix of, were it of no byte. That
    /// write is then the last below that no sync has made durable.
    pub fn has_torn_front(&self) -> bool
        ensures { result ≡ torn_front_of self.now }
    {
        self.has_torn_front
    }

    /// The disk below.
    pub fn into_inner(self) -> D
        ensures { result ≡ disk_below self }
    {
        let FaultDisk {
            inner,
            stop: _,
            fail: _,
            reads: _,
            writes: _,
            syncs: _,
            has_torn_front: _,
            faults: _,
        } = self;
        inner
    }

    /// What the call that has just been counted meets.
    fn trouble(&self) -> Option<Trouble>
        ensures { result ≡ trouble_of self.now }
    {
        let call = self
            .reads
            .saturating_add(self.writes)
            .saturating_add(self.syncs);
        if let Some(stop) = self.stop {
            if stop.call < call {
                return Some(Trouble::Stopped);
            }
            if stop.call == call {
                return Some(Trouble::Stops(usize::from(stop.front).min(SECTOR_SIZE)));
            }
        }
        match self.fail {
            Some(fail) if fail.call == call => {
                Some(Trouble::Fails(usize::from(fail.front).min(SECTOR_SIZE)))
            }
            _ => None,
        }
    }
}

impl<D: Disk> Disk for FaultDisk<D> {
    ghost use Rattle.sector_disk.specs.rules.FaultDisk.{disk_below, stop_of, fail_of};
    ghost use Rattle.sector_disk.specs.rules.FaultDisk.{call_counts_of, trouble_of, torn_front_of};
    ghost use Rattle.sector_disk.specs.rules.Medium.{Reads, Writes, SyncsMedium};
    ghost use Rattle.sector_disk.specs.rules.Trouble.{counted, trouble_fault, troubled};
    ghost use Rattle.sector_disk.specs.rules.Trouble.{LeavesFront};

    ghost medium = { λ f. troubled (D.medium f.inner) f.stop f.fail (length f.faults.items)
        (call_counts_of f) };

    fn sectors(&self) -> u64 {
        self.inner.sectors()
    }

    fn read(&mut self, sector: u64, into: &mut [u8; SECTOR_SIZE]) -> Result<(), DiskFault>
        ensures reads { Reads sector into.new result (⟦<FaultDisk<D> as Disk>⟧.medium self.old)
            (⟦<FaultDisk<D> as Disk>⟧.medium self.new) }
        ensures calls { call_counts_of self.new
            ≡ record (call_counts_of self.old) { reads = counted (call_counts_of self.old).reads } }
        ensures stop { stop_of self.new ≡ stop_of self.old }
        ensures fail { fail_of self.new ≡ fail_of self.old }
        ensures torn_front { torn_front_of self.new ≡ torn_front_of self.old }
        ensures trouble { IfSome (trouble_of self.new) (λ trouble. (result
            ≡ Err (trouble_fault trouble)) × (into.new ≡ into.old)
            × (disk_below self.new ≡ disk_below self.old)) }
        ensures passed_on { IfNone (trouble_of self.new)
            (Reads sector into.new result (D.medium (disk_below self.old))
            (D.medium (disk_below self.new))) }
    {
        self.reads = self.reads.saturating_add(1);
        match self.trouble() {
            None => self.inner.read(sector, into),
            Some(trouble) => {
                self.faults = self.faults.and(&(), &());
                Err(trouble.fault())
            }
        }
    }

    fn write(&mut self, sector: u64, from: &[u8; SECTOR_SIZE]) -> Result<(), DiskFault>
        ensures writes { Writes sector from.now result (⟦<FaultDisk<D> as Disk>⟧.medium self.old)
            (⟦<FaultDisk<D> as Disk>⟧.medium self.new) }
        ensures calls { call_counts_of self.new
            ≡ record (call_counts_of self.old) {
              writes = counted (call_counts_of self.old).writes;
            } }
        ensures stop { stop_of self.new ≡ stop_of self.old }
        ensures fail { fail_of self.new ≡ fail_of self.old }
        ensures trouble { IfSome (trouble_of self.new) (λ trouble. result
            ≡ Err (trouble_fault trouble)) }
        ensures stops { (front : ℕ) → trouble_of self.new ≡ Some (Trouble.Stops front)
            → LeavesFront front sector from.now (torn_front_of self.new)
            (D.medium (disk_below self.old)) (D.medium (disk_below self.new)) }
        ensures fails { (front : ℕ) → trouble_of self.new ≡ Some (Trouble.Fails front)
            → (is_taken : Bool)
            × LeavesFront front sector from.now is_taken (D.medium (disk_below self.old))
            (D.medium (disk_below self.new)) }
        ensures stopped { trouble_of self.new ≡ Some Trouble.Stopped
            → disk_below self.new ≡ disk_below self.old }
        ensures torn_front { ((front : ℕ) → trouble_of self.new ≡ Some (Trouble.Stops front) → ⊥)
            → torn_front_of self.new ≡ torn_front_of self.old }
        ensures passed_on { IfNone (trouble_of self.new)
            (Writes sector from.now result (D.medium (disk_below self.old))
            (D.medium (disk_below self.new))) }
    {
        self.writes = self.writes.saturating_add(1);
        match self.trouble() {
            None => self.inner.write(sector, from),
            Some(Trouble::Stops(front)) => {
                self.faults = self.faults.and(&(), &());
                self.has_torn_front = write_front(&mut self.inner, sector, from, front);
                Err(DiskFault::Cut)
            }
            Some(Trouble::Stopped) => {
                self.faults = self.faults.and(&(), &());
                Err(DiskFault::Cut)
            }
            Some(Trouble::Fails(front)) => {
                self.faults = self.faults.and(&(), &());
                let _ = write_front(&mut self.inner, sector, from, front);
                Err(DiskFault::Io)
            }
        }
    }

    fn sync(&mut self) -> Result<(), DiskFault>
        ensures syncs { SyncsMedium result (⟦<FaultDisk<D> as Disk>⟧.medium self.old)
            (⟦<FaultDisk<D> as Disk>⟧.medium self.new) }
        ensures calls { call_counts_of self.new
            ≡ record (call_counts_of self.old) { syncs = counted (call_counts_of self.old).syncs } }
        ensures stop { stop_of self.new ≡ stop_of self.old }
        ensures fail { fail_of self.new ≡ fail_of self.old }
        ensures torn_front { torn_front_of self.new ≡ torn_front_of self.old }
        ensures trouble { IfSome (trouble_of self.new) (λ trouble. (result
            ≡ Err (trouble_fault trouble)) × (disk_below self.new ≡ disk_below self.old)) }
        ensures passed_on { IfNone (trouble_of self.new)
            (SyncsMedium result (D.medium (disk_below self.old)) (D.medium (disk_below self.new))) }
    {
        self.syncs = self.syncs.saturating_add(1);
        match self.trouble() {
            None => self.inner.sync(),
            Some(trouble) => {
                self.faults = self.faults.and(&(), &());
                Err(trouble.fault())
            }
        }
    }
}
