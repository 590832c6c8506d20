//! The turns of a slice of a worker on its disk. Each takes steps up to where something is owed or
//! asked, and does what that wants of the disk and of the outside.
//!
//! **An answer is tested before it is kept.** One that doesn't fit is never a record, not even in
//! memory. No record has to be taken back, and none is too long for the journal.

ghost use Rattle.std.specs.Prelude.{◌≡◌, ◌≤◌, Err, IfErr, IfOk, OnErr, OnOk, Ok, true};
ghost use Rattle.process.specs.rules.Values.{IsProcess};
ghost use Rattle.sector_disk.specs.rules.Medium.{CallsUpTo};
ghost use Rattle.disk_layout.specs.rules.Places.{total_sectors};
ghost use Rattle.record_replay.specs.rules.Waiting.{ReleasesAll};
ghost use Rattle.record_replay.specs.Turns.{AsksOnce};
ghost use Rattle.worker.specs.DurableTurns.{asking_scene, AsksTurn, FlushesTurn, IsAskFault};
ghost use Rattle.worker.specs.DurableTurns.{Hears, HasRoom, IsFlushFault, IsOfStoreFault};
ghost use Rattle.worker.specs.DurableTurns.{MakesNoRoom, MakesRoom, TakesNone, TakesOnRecord};
ghost use Rattle.worker.specs.rules.CallCounts.{most_saving};
ghost use Rattle.worker.specs.BatchTurns.{AsksHolding};
ghost use Rattle.worker.specs.StoreTurns.{HearsOrNot, LeavesStore, StoreGoes, StoreRuns};

use crate::fault::WorkFault;
use crate::running_worker::RunningWorker;
use crate::saving::save;
use disk_layout::{Record, longest_record};
use record_replay::{Outlet, SliceFault, Source, release_waiting};
use sector_disk::Disk;
use wasi_abi::{NUMBERS_END, Question, fits};
use worker_store::laws::process_images_fit_areas;

impl RunningWorker {
    /// Puts the records on the disk, and then releases the lines that wait.
    pub(crate) fn flush<D: Disk, O: Outlet>(
        &mut self,
        disk: &mut D,
        outlet: &mut O,
    ) -> Result<(), WorkFault>
        requires { total_sectors self.old.store.geometry ≤ (D.medium disk.old).sectors }
        ensures all { OnOk result
            (ReleasesAll O.takes self.old.process self.new.process outlet.old outlet.new) }
        ensures turn { FlushesTurn O.takes self.old result self.new (D.medium disk.old)
            (D.medium disk.new) outlet.old outlet.new }
        ensures fault { IfErr result (λ why. IsFlushFault O.takes self.old.process why
            self.new.process outlet.old outlet.new) }
        ensures store { LeavesStore result self.old.store self.new.store (D.medium disk.old)
            (D.medium disk.new) }
    {
        self.store.barrier(disk)?;
        release_waiting(&mut self.process, outlet)?;
        Ok(())
    }

    /// Asks the source once, and gives the process the answer, where there is one. Whether there
    /// was. Before that there is room for any answer on the disk. A process that asks has emitted
    /// each line that was ever told.
    pub(crate) fn ask<D: Disk, S: Source>(
        &mut self,
        question: Question,
        disk: &mut D,
        source: &mut S,
    ) -> Result<bool, WorkFault>
        requires { total_sectors self.old.store.geometry ≤ (D.medium disk.old).sectors }
        ensures once { IfOk result (λ is_there. AsksOnce S.gives question self.old.process
            (Ok is_there) self.new.process source.old source.new) }
        ensures released { self.new.process.host.released ≡ self.old.process.host.released }
        ensures abreast { OnOk result (self.new.is_abreast ≡ true) }
        ensures turn { AsksTurn D.medium S.gives question
            (asking_scene self.old disk.old source.old) result
            (asking_scene self.new disk.new source.new) }
        ensures holding { AsksHolding D.medium S.gives question
            (asking_scene self.old disk.old source.old) result
            (asking_scene self.new disk.new source.new) }
        ensures fault { IfErr result (λ why. IsAskFault S.gives self.old question why self.new
            source.old source.new) }
        ensures goes { result ≡ Err (WorkFault.Work SliceFault.Source)
            → StoreGoes self.old.store self.new.store (D.medium disk.old) (D.medium disk.new) }
        ensures runs { StoreRuns result self.old.store self.new.store (D.medium disk.old)
            (D.medium disk.new) }
        ensures places { self.new.store.geometry ≡ self.old.store.geometry }
        ensures sectors { (D.medium disk.new).sectors ≡ (D.medium disk.old).sectors }
        ensures few { CallsUpTo (most_saving (D.medium disk.old).sectors) (D.medium disk.old)
            (D.medium disk.new) }
    {
        let step = self.process.steps() + 1;
        self.make_room(disk)?;
        self.is_abreast = true;
        self.hear(question, step, source)
    }

    /// Saves the process, where the journal may be too full for the next record.
    fn make_room<D: Disk>(&mut self, disk: &mut D) -> Result<(), WorkFault>
        requires sectors { total_sectors self.old.store.geometry ≤ (D.medium disk.old).sectors }
        requires shown { IsProcess self.old.process }
        ensures same { self.new.process ≡ self.old.process }
        ensures made { OnOk result (MakesRoom self.old self.new (D.medium disk.old)
            (D.medium disk.new)) }
        ensures unmade { IfErr result (λ why. MakesNoRoom self.old why self.new
            (D.medium disk.old) (D.medium disk.new)) }
        ensures fault { IfErr result IsOfStoreFault }
        ensures lacking { OnErr result (HasRoom self.old → ⊥) }
        ensures runs { StoreRuns result self.old.store self.new.store (D.medium disk.old)
            (D.medium disk.new) }
        ensures places { self.new.store.geometry ≡ self.old.store.geometry }
        ensures sectors { (D.medium disk.new).sectors ≡ (D.medium disk.old).sectors }
        ensures few { CallsUpTo (most_saving (D.medium disk.old).sectors) (D.medium disk.old)
            (D.medium disk.new) }
    {
        let version = self.store.version();
        if self.store.room() >= longest_record(version) {
            return Ok(());
        }
        process_images_fit_areas();
        save(self.alloc, disk, &mut self.store, &self.process)?;
        Ok(())
    }

    /// Asks the source once. Its answer would be taken by this step.
    fn hear<S: Source>(
        &mut self,
        question: Question,
        step: u64,
        source: &mut S,
    ) -> Result<bool, WorkFault>
        ensures hears { Hears S.gives self.old question step result self.new source.old source.new }
        ensures released { self.new.process.host.released ≡ self.old.process.host.released }
        ensures kept { HearsOrNot result self.old.store self.new.store }
        ensures places { self.new.store.geometry ≡ self.old.store.geometry }
    {
        match source.answer(question) {
            Err(_) => Err(WorkFault::Work(SliceFault::Source)),
            Ok(None) => Ok(false),
            Ok(Some(answer)) => match self.keep(question, Record { step, answer }) {
                Ok(()) => Ok(true),
                Err(fault) => Err(fault),
            },
        }
    }

    /// Keeps an answer that fits on record, and gives it to the process.
    fn keep(&mut self, question: Question, entry: Record) -> Result<(), WorkFault>
        ensures taken { OnOk result (TakesOnRecord self.old question entry self.new) }
        ensures not_taken { IfErr result (λ why. TakesNone self.old question entry why self.new) }
        ensures released { self.new.process.host.released ≡ self.old.process.host.released }
        ensures kept { HearsOrNot result self.old.store self.new.store }
        ensures places { self.new.store.geometry ≡ self.old.store.geometry }
    {
        let does_fit = fits(
            self.process.host().version().text_limit(),
            question,
            &entry.answer,
        );
        if !does_fit {
            return Err(WorkFault::Work(SliceFault::Source));
        }
        self.store.append(&entry)?;
        self.process.give(&entry.answer)?;
        let is_numbered = self.process.steps() < NUMBERS_END;
        prove!(is_numbered);
        Ok(())
    }
}
