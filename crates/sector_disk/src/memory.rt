//! A disk in memory. Kept are the sectors of the last good sync and the writes since, so that the
//! disk can be cut.
ghost use Rattle.std.specs.Prelude.{◌≡◌, ◌<◌, ◌≤◌, List, ℕ, [], length, drop, replicate, All};
ghost use Rattle.std.specs.Prelude.{vec_capacity, IfOk, IfErr, OnOk, OnErr};
ghost use Rattle.sector_disk.specs.declared.sector.TheConstants.{SECTOR_SIZE};
ghost use Rattle.sector_disk.specs.rules.DiskImage.{DiskImage, IsDiskImage, sector_at, zeros};
ghost use Rattle.sector_disk.specs.rules.Pending.{IsWriteWithin, first_front, torn_by};
ghost use Rattle.sector_disk.specs.rules.Pending.{replayed as all_of};
ghost use Rattle.sector_disk.specs.laws.Beside.{AreSameBeside};

use crate::disk_call::DiskCall;
use crate::front::leave_front;
use crate::log::Log;
use crate::write::Write;
use crate::{Disk, DiskFault, SECTOR_SIZE};
use std::alloc::Global;

type Sector = [u8; SECTOR_SIZE];

/// A disk in memory, which a cut can be tried on. It fails only if asked for a sector that it lacks
/// (`Range`), or for more writes between two syncs than it has room for (`Io`). No read, write or
/// sync takes memory.
#[derive(Drop)]
pub struct MemDisk {
    /// What the last good sync left.
    durable: Vec<Sector>,
    /// What reads give.
    shown: Vec<Sector>,
    /// The writes since the last good sync, the oldest first.
    pending: Vec<Write>,
    /// How many writes there is room for between two syncs.
    limit: usize,
    /// What was durable, and the writes since, before each write and sync. Only clauses read it.
    past: Log<Vec<Sector>, Vec<Write>>,
    /// Each write and sync that it took. Only clauses read it.
    calls: Log<DiskCall, ()>,
    ghost full: { IsDiskImage (length durable.items) durable.items },
    ghost within: { All (IsWriteWithin (length durable.items)) pending.items },
    ghost replayed: { shown.items ≡ all_of pending.items durable.items },
    ghost fits: { length pending.items ≤ limit },
    ghost reserved: { limit ≤ vec_capacity pending },
}

impl MemDisk {
    ghost use Rattle.sector_disk.specs.rules.Medium.{IsAllSynced};
    ghost use Rattle.sector_disk.specs.rules.Memory.{memory_medium, memory_state_of, shown_by};
    ghost use Rattle.sector_disk.specs.rules.Memory.{after_cut, IsEveryCut};

    /// So many sectors of zeros, with room for so many writes between two syncs. It fails only when
    /// out of memory.
    pub fn new(alloc: Global, sectors: u64, writes: usize) -> Result<MemDisk, DiskFault>
        ensures made { IfOk result (λ d. memory_state_of d
            ≡ record {
              durable = replicate sectors (replicate SECTOR_SIZE 0);
              pending = [];
              limit = writes;
            }) }
        ensures zeros { IfOk result (λ d.
            (memory_medium d).shows (replicate sectors (replicate SECTOR_SIZE 0))) }
        ensures all_synced { IfOk result (λ d. IsAllSynced (memory_medium d)) }
        ensures fresh { IfOk result (λ d. (memory_medium d).calls ≡ []) }
        ensures err { IfErr result (λ e. e ≡ DiskFault.Memory) }
    {
        let mut durable = Vec::new(alloc);
        durable.resize(sectors as usize, [0; SECTOR_SIZE])?;
        MemDisk::from_sectors(alloc, durable, writes)
    }

    /// The same disk, of zeros, as it was made. It takes no memory, so it can't fail.
    pub fn wiped(self) -> MemDisk
        ensures wiped { memory_state_of result ≡ record {
          durable = zeros (length (memory_state_of self).durable);
          pending = [];
          limit = (memory_state_of self).limit;
        } }
        ensures zeros { (memory_medium result).shows
            (zeros (length (memory_state_of self).durable)) }
        ensures all_synced { IsAllSynced (memory_medium result) }
        ensures fresh { (memory_medium result).calls ≡ [] }
    {
        let MemDisk {
            mut durable,
            mut shown,
            mut pending,
            limit,
            past: _,
            calls: _,
        } = self;
        wipe(&mut durable);
        wipe(&mut shown);
        pending.clear();
        MemDisk {
            durable,
            shown,
            pending,
            limit,
            past: Log::new(),
            calls: Log::new(),
        }
    }

    /// How many writes there is room for between two syncs.
    pub fn write_limit(&self) -> usize
        ensures { result ≡ (memory_state_of self.now).limit }
    {
        self.limit
    }

    /// How many writes there were since the last good sync.
    pub fn unsynced_count(&self) -> usize
        ensures { result ≡ length (memory_state_of self.now).pending }
    {
        self.pending.len()
    }

    /// What a cut leaves that keeps these fronts, in bytes, of the writes since the last good sync,
    /// the oldest first. A missing number, or a larger one than a sector has bytes, keeps all of
    /// its write. It fails only when out of memory.
    pub fn cut(&self, alloc: Global, tears: &[u16]) -> Result<MemDisk, DiskFault>
        ensures cut { IfOk result (λ d. memory_state_of d
            ≡ after_cut (memory_state_of self.now) tears.now) }

        // It is one of the images that a cut now may leave, and each of those is had so.
        ensures crash_image { (memory_medium self.now).crash_images
            (after_cut (memory_state_of self.now) tears.now).durable }
        ensures every { IsEveryCut self.now }
        ensures shows { IfOk result (λ d.
            (memory_medium d).shows (after_cut (memory_state_of self.now) tears.now).durable) }
        ensures all_synced { IfOk result (λ d. IsAllSynced (memory_medium d)) }
        ensures fresh { IfOk result (λ d. (memory_medium d).calls ≡ []) }
        ensures err { IfErr result (λ e. e ≡ DiskFault.Memory) }
    {
        let mut image = Vec::from_slice(alloc, &self.durable)?;
        leave_writes(&mut image, &self.pending, tears);
        MemDisk::from_sectors(alloc, image, self.limit)
    }

    /// The same cut, in the memory of this disk. It takes none, so it can't fail. It costs as much
    /// as there were writes since the last good sync.
    pub fn into_cut(self, tears: &[u16]) -> MemDisk
        ensures cut { memory_state_of result ≡ after_cut (memory_state_of self) tears.now }
        ensures crash_image { (memory_medium self).crash_images
            (after_cut (memory_state_of self) tears.now).durable }
        ensures shows { (memory_medium result).shows
            (after_cut (memory_state_of self) tears.now).durable }
        ensures all_synced { IsAllSynced (memory_medium result) }
        ensures fresh { (memory_medium result).calls ≡ [] }
    {
        let MemDisk {
            mut durable,
            mut shown,
            mut pending,
            limit,
            past: _,
            calls: _,
        } = self;
        leave_writes(&mut durable, &pending, tears);
        show_durable(&mut shown, &durable, &pending);
        pending.clear();
        MemDisk {
            durable,
            shown,
            pending,
            limit,
            past: Log::new(),
            calls: Log::new(),
        }
    }

    pub(crate) fn from_sectors(
        alloc: Global,
        durable: Vec<Sector>,
        limit: usize,
    ) -> Result<MemDisk, DiskFault>
        requires { IsDiskImage (length durable.items) durable.items }
        ensures made { IfOk result (λ d. memory_state_of d ≡ record {
          durable = durable.items;
          pending = [];
          limit = limit;
        }) }
        ensures shows { IfOk result (λ d. (memory_medium d).shows durable.items) }
        ensures all_synced { IfOk result (λ d. IsAllSynced (memory_medium d)) }
        ensures fresh { IfOk result (λ d. (memory_medium d).calls ≡ []) }
        ensures err { IfErr result (λ e. e ≡ DiskFault.Memory) }
    {
        let shown = Vec::from_slice(alloc, &durable)?;
        Ok(MemDisk {
            durable,
            shown,
            pending: Vec::with_capacity(alloc, limit)?,
            limit,
            past: Log::new(),
            calls: Log::new(),
        })
    }
}

/// Leaves the writes over the sectors, the oldest first: of each the front that its number names.
fn leave_writes(sectors: &mut Vec<Sector>, writes: &[Write], tears: &[u16])
    requires image { IsDiskImage (length sectors.old.items) sectors.old.items }
    requires within { All (IsWriteWithin (length sectors.old.items)) writes.now }
    ensures left { sectors.new.items ≡ torn_by tears.now writes.now sectors.old.items }
    ensures image { IsDiskImage (length sectors.old.items) sectors.new.items }
{
    for (i, write) in writes.iter().enumerate() {
        leave_front(
            &mut sectors[write.sector],
            &write.bytes,
            front_named(tears, i),
        );
    }
}

/// Leaves zeros in all sectors.
fn wipe(sectors: &mut Vec<Sector>)
    ensures { sectors.new.items ≡ zeros (length sectors.old.items) }
{
    let mut k = 0;
    while k < sectors.len() {
        sectors[k] = [0; SECTOR_SIZE];
        k += 1;
    }
}

/// Shows what is durable, where the two differ by the sectors of these writes alone.
fn show_durable(shown: &mut [Sector], durable: &[Sector], writes: &[Write])
    requires size { length shown.old ≡ length durable.now }
    requires within { All (IsWriteWithin (length durable.now)) writes.now }
    requires same { AreSameBeside writes.now shown.old durable.now }
    ensures { shown.new ≡ durable.now }
{
    for write in writes {
        shown[write.sector] = durable[write.sector];
    }
}

/// The front that the number at `i` names.
fn front_named(tears: &[u16], i: usize) -> usize
    ensures front { result ≡ first_front (drop i tears.now) }
    ensures within { result ≤ SECTOR_SIZE }
{
    if i < tears.len() {
        usize::from(tears[i]).min(SECTOR_SIZE)
    } else {
        SECTOR_SIZE
    }
}

impl Disk for MemDisk {
    ghost use Rattle.sector_disk.specs.rules.Medium.{Keeps, Reads, Writes, SyncsMedium};
    ghost use Rattle.sector_disk.specs.rules.Memory.{memory_medium, memory_state_of, shown_by};
    ghost use Rattle.sector_disk.specs.rules.Memory.{read_answer, write_answer, after_write};
    ghost use Rattle.sector_disk.specs.rules.Memory.{after_sync};

    ghost medium = { memory_medium };

    fn sectors(&self) -> u64 {
        self.durable.len() as u64
    }

    fn read(&mut self, sector: u64, into: &mut [u8; SECTOR_SIZE]) -> Result<(), DiskFault>
        ensures reads { Reads sector into.new result (memory_medium self.old)
            (memory_medium self.new) }
        ensures answer { result ≡ read_answer (memory_state_of self.old) sector }
        ensures bytes { OnOk result (into.new
            ≡ sector_at (shown_by (memory_state_of self.old)) sector) }
        ensures refused { OnErr result (into.new ≡ into.old) }
        ensures same { self.new ≡ self.old }
    {
        if sector >= self.sectors() {
            return Err(DiskFault::Range);
        }
        *into = self.shown[sector as usize];
        Ok(())
    }

    fn write(&mut self, sector: u64, from: &[u8; SECTOR_SIZE]) -> Result<(), DiskFault>
        ensures writes { Writes sector from.now result (memory_medium self.old)
            (memory_medium self.new) }
        ensures answer { result ≡ write_answer (memory_state_of self.old) sector }
        ensures done { OnOk result (memory_state_of self.new
            ≡ after_write (memory_state_of self.old) sector from.now) }
        ensures refused { OnErr result (self.new ≡ self.old) }
        ensures kept { Keeps (memory_medium self.old) (memory_medium self.new) }
    {
        if sector >= self.sectors() {
            return Err(DiskFault::Range);
        }
        if self.pending.len() >= self.limit {
            return Err(DiskFault::Io);
        }
        let at = sector as usize;
        let past = self.past.and(&self.durable, &self.pending);
        let Ok(()) = self.pending.push(Write {
            sector: at,
            bytes: *from,
        })
        else {
            unreachable!()
        };
        self.shown[at] = *from;
        self.past = past;
        self.calls = self.calls.and(&DiskCall::WriteOf(sector), &());
        Ok(())
    }

    fn sync(&mut self) -> Result<(), DiskFault>
        ensures syncs { SyncsMedium result (memory_medium self.old) (memory_medium self.new) }
        ensures answer { result ≡ Ok tt }
        ensures done { memory_state_of self.new ≡ after_sync (memory_state_of self.old) }
        ensures kept { Keeps (memory_medium self.old) (memory_medium self.new) }
    {
        let past = self.past.and(&self.durable, &self.pending);
        leave_writes(&mut self.durable, &self.pending, &[]);
        self.pending.clear();
        self.past = past;
        self.calls = self.calls.and(&DiskCall::Sync, &());
        Ok(())
    }
}
