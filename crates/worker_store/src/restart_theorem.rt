//! What is promised of a worker over all its lives, with cuts of the power between them (this
//! project's own). Also, which disk images stand for a worker, and what they hold of a promise.
//! `docs/THEOREM.md` explains the definitions, in `specs/restart_theorem/`, and the laws of them,
//! which are here.
//!
//! # Example
//!
//! A law is called where its fact is wanted. Here lives that were shown to be those of a worker's
//! calls (`AreLivedOn`) go on as one that was never stopped (`GoesOn`):
//!
//! ```text
//! use worker_store::restart_theorem::lives_go_on;
//!
//! fn theorem<D: Disk>()
//!     ensures { LivesGoOn D.medium }
//! {
//!     lives_go_on::<D>()
//! }
//! ```
//!
//! # Promises
//!
//! The calls do nothing; what they ensure is proved of the definitions.
//!
//! - Of lives of which the theorem holds: no line number has two texts (`no_number_has_two_texts`).
//!   What a life opened with, what a checkpoint held and the answers behind a guest sync stay for
//!   good (`promises_are_for_good`). An upgrade stays, too (`upgrades_are_for_good`,
//!   `only_upgrades_widen`).
//! - From calls to lives: `calls_join`, `next_life_finds_it`, `lives_go_on`, and
//!   `lives_on_files_go_on` for a disk in a file. In `worker` it is proved that the calls of the
//!   code make such lives (`calls_make_lives`).
//! - Of workers that go on from what another one has left, with other code: `successors_go_on`, and
//!   that all of them, one after another, tell one history (`successors_tell_one_history`).
//! - Of disks: what a disk stands for is reached by the module, by one generation alone
//!   (`disks_stand_for_what_is_reached`, `disks_stand_by_one_generation`). Its first
//!   sectors, as many as the worker has, decide it (`disks_stand_by_their_first_sectors`).
//! - Of the text: workers that nobody wants are refused (`refused_workers`, `refused_events`,
//!   `refused_upgrades`, `refused_batches`, `refused_successors`), and right ones are not
//!   (`honest_stories`, `honest_upgrades`, `honest_batches`, `hello_goes_on`).
//!
//! # Definitions to read
//!
//! In `specs/restart_theorem/`:
//!
//! - `Stands.antt`: `StandsFor`, an image of the disk that stands for a worker.
//! - `Lives.antt`: `Inputs`, what is put into a life; `Event`, `Life`, what happens in it.
//! - `Courses.antt`: `Stage`, where a life is between two events; `AreToldBy`, how many lines may
//!   wait in a batch; `MayEnd`, how it may end.
//! - `Promises.antt`: `Promise`, `HoldsAll`; what each event keeps; `TakesLast`, where a recovery
//!   that tells lines ends; `GoesOn`.
//! - `Holds.antt`: `DiskImageHolds`, what an image of the disk holds of a promise.
//! - `Exchanges.antt`, `Between.antt`: which events calls are, and what the next life finds.
//! - `Successions.antt`: what a worker leaves, what is promised of its successor, and when what
//!   they told is one history.
//!
//! # Who may touch what
//!
//! There is no code here but empty functions. Which sectors stand for a worker is said here alone.
//!
//! # Choices
//!
//! - A life that opens is where it opened: guest syncs of steps beyond it no longer count as
//!   returned. Every later life opens with their answers, so nothing is lost by it.
//! - A widening is kept also where the upgrade has failed: its head may be on the disk.

ghost use Rattle.wasm_syntax.specs.declared.module.Module.{Module};
ghost use Rattle.wasi_abi.specs.declared.version.Version.{Version};
ghost use Rattle.wasi_abi.specs.rules.Configs.{Settings};
ghost use Rattle.process_rules.specs.Origins.{Origin};
ghost use Rattle.process_rules.specs.Processes.{ProcessState, Guest};
ghost use Rattle.worker_store.specs.restart_theorem.laws.Laws.{PromisesAreOfKept};
ghost use Rattle.worker_store.specs.restart_theorem.laws.Laws.{NoNumberHasTwoTexts, CallsJoin};
ghost use Rattle.worker_store.specs.restart_theorem.laws.Laws.{OpeningsAreForGood};
ghost use Rattle.worker_store.specs.restart_theorem.laws.Laws.{CheckpointsAreForGood};
ghost use Rattle.worker_store.specs.restart_theorem.laws.Laws.{SyncsAreForGood};
ghost use Rattle.worker_store.specs.restart_theorem.laws.Laws.{OpenedLinesAreToldNoMore};
ghost use Rattle.worker_store.specs.restart_theorem.laws.Laws.{SavedLinesAreToldNoMore};
ghost use Rattle.worker_store.specs.restart_theorem.laws.ForGood.{WhatIsForGood};
ghost use Rattle.worker_store.specs.restart_theorem.laws.Upgrades.{OnlyUpgradesWiden};
ghost use Rattle.worker_store.specs.restart_theorem.laws.Upgrades.{EndsWidenOnce};
ghost use Rattle.worker_store.specs.restart_theorem.laws.Upgrades.{UpgradesAreForGood};
ghost use Rattle.worker_store.specs.restart_theorem.laws.Upgrades.{WideOpeningsAreForGood};
ghost use Rattle.worker_store.specs.restart_theorem.laws.Upgrades.{UpgradedStayWide};
ghost use Rattle.worker_store.specs.restart_theorem.laws.Upgrades.{UpgradedLinesAreToldNoMore};
ghost use Rattle.worker_store.specs.restart_theorem.laws.Found.{FoundWasCrashImage, FoundIsAsLong};
ghost use Rattle.worker_store.specs.restart_theorem.laws.Found.{FoundSyncedOrSame, NoWorkerComes};
ghost use Rattle.worker_store.specs.restart_theorem.laws.Found.{NextLifeFindsIt, NextLifeIsWithin};
ghost use Rattle.worker_store.specs.restart_theorem.laws.Found.{LivesGoOn, PromisedLivesGoOn};
ghost use Rattle.worker_store.specs.restart_theorem.laws.Files.{LivesOnFilesGoOn};
ghost use Rattle.worker_store.specs.restart_theorem.laws.Files.{PromisedLivesOnFilesGoOn};
ghost use Rattle.worker_store.specs.restart_theorem.laws.Files.{OpenedAfterCut, ZerosAreBlank};
ghost use Rattle.worker_store.specs.restart_theorem.laws.Copies.{FirstSectorsDecide};
ghost use Rattle.worker_store.specs.restart_theorem.laws.Copies.{StandsByItsContents};
ghost use Rattle.worker_store.specs.restart_theorem.laws.Copies.{TheSameIsHeld, TheSameIsWithin};
ghost use Rattle.worker_store.specs.restart_theorem.laws.Copies.{LivesOnCopiesGoOn};
ghost use Rattle.worker_store.specs.restart_theorem.laws.Disks.{StandsForWhatIsReached};
ghost use Rattle.worker_store.specs.restart_theorem.laws.Disks.{RecordsAscend, StandsByItsParts};
ghost use Rattle.worker_store.specs.restart_theorem.laws.Disks.{BlankStandsForNone};
ghost use Rattle.worker_store.specs.restart_theorem.laws.Disks.{HeadsTellWidenings};
ghost use Rattle.worker_store.specs.restart_theorem.laws.Disks.{RunsKeepNumbers};
ghost use Rattle.worker_store.specs.restart_theorem.laws.Disks.{RecordsKeepNumbers};
ghost use Rattle.worker_store.specs.restart_theorem.laws.Disks.{SavedAreNumbered};
ghost use Rattle.worker_store.specs.restart_theorem.laws.Disks.{NoLaterProcessImage, NoLaterSector};
ghost use Rattle.worker_store.specs.restart_theorem.laws.Disks.{NoLaterRecord, OneGeneration};
ghost use Rattle.worker_store.specs.restart_theorem.laws.Disks.{OneSpelledWorker, StandsWithin};
ghost use Rattle.worker_store.specs.restart_theorem.laws.Disks.{BlankIsWithin, DiskExamples};
ghost use Rattle.worker_store.specs.restart_theorem.laws.Examples.{LivesExamples, PromiseExamples};
ghost use Rattle.worker_store.specs.restart_theorem.laws.Examples.{CourseExamples, ReplyExamples};
ghost use Rattle.worker_store.specs.restart_theorem.laws.Honest.{Teller, HonestStories};
ghost use Rattle.worker_store.specs.restart_theorem.laws.Honest.{Upgraded, HonestUpgrades};
ghost use Rattle.worker_store.specs.restart_theorem.laws.Refused.{RefusedEvents, RefusedWorkers};
ghost use Rattle.worker_store.specs.restart_theorem.laws.Refused.{RefusedUpgrades};
ghost use Rattle.worker_store.specs.restart_theorem.laws.Refused.{RefusedUpgraders};
ghost use Rattle.worker_store.specs.restart_theorem.laws.Batches.{RefusedBatches};
ghost use Rattle.worker_store.specs.restart_theorem.laws.Batches.{RefusedBatchLives, HonestBatches};
ghost use Rattle.worker_store.specs.restart_theorem.laws.SuccessionExamples.{SuccessionExamples};
ghost use Rattle.worker_store.specs.restart_theorem.laws.SuccessionExamples.{HistoryExamples};
ghost use Rattle.worker_store.specs.restart_theorem.laws.SuccessionExamples.{RestExamples};
ghost use Rattle.worker_store.specs.restart_theorem.laws.Successions.{SuccessorsGoOn, OriginsStay};
ghost use Rattle.worker_store.specs.restart_theorem.laws.Successions.{PlainSucceedNone, Succession};
ghost use Rattle.worker_store.specs.restart_theorem.laws.Successions.{SuccessiveTellAll};
ghost use Rattle.worker_store.specs.restart_theorem.laws.Successions.{RefusedSuccessors};
ghost use Rattle.worker_store.specs.restart_theorem.laws.SuccessorLives.{HelloSuccessors};
ghost use Rattle.worker_store.specs.restart_theorem.laws.WholeLives.{HelloLives, HelloUpgrades};
ghost use Rattle.worker_store.specs.restart_theorem.laws.WholeLives.{EchoRefusals};
ghost use Rattle.worker_store.specs.restart_theorem.Promises.{Promise};
ghost use Rattle.worker_store.specs.restart_theorem.Courses.{Stage};

use sector_disk::Disk;

/// The answers that a promise speaks of are the kept ones.
pub fn promises_are_of_kept_answers()
    ensures { PromisesAreOfKept }
{}

/// Where the restart theorem holds of a valid module, no number has two texts.
pub fn no_number_has_two_texts()
    ensures { NoNumberHasTwoTexts }
{}

/// Where it holds, each later life has at least what an earlier one opened with and what a
/// checkpoint held. So it has the answers behind a guest sync that returned. The same, and what is
/// said of lines and upgrades below, holds of lives from whatever was promised before.
pub fn promises_are_for_good()
    ensures openings { OpeningsAreForGood }
    ensures checkpoints { CheckpointsAreForGood }
    ensures syncs { SyncsAreForGood }
    ensures any { WhatIsForGood }
{}

/// Where it holds, no line is told again after which a life has opened or a checkpoint was done.
pub fn passed_lines_are_told_no_more()
    ensures openings { OpenedLinesAreToldNoMore }
    ensures checkpoints { SavedLinesAreToldNoMore }
{}

/// No opening, slice or checkpoint widens a process. Where a call has widened it, its end adds one
/// widening to what is kept, and the process is the same but for that.
pub fn only_upgrades_widen()
    ensures only { OnlyUpgradesWiden }
    ensures once { EndsWidenOnce }
{}

/// Once an upgrade is done, or a life has opened in version 2, each later life opens in version 2
/// with all that was taken then. No later call shows version 1 unless it fails. The lines of an
/// upgraded process are told no more.
pub fn upgrades_are_for_good()
    ensures done { UpgradesAreForGood }
    ensures opened { WideOpeningsAreForGood }
    ensures calls { UpgradedStayWide }
    ensures lines { UpgradedLinesAreToldNoMore }
{}

/// What calls keep one after another they keep together.
pub fn calls_join()
    ensures { CallsJoin }
{}

/// The next life finds what the last one left, with what was promised on it.
pub fn next_life_finds_it<D: Disk>()
    ensures keeps { NextLifeFindsIt D.medium }
    ensures within { NextLifeIsWithin D.medium }
    ensures was_crash_image { FoundWasCrashImage D.medium }
    ensures as_long { FoundIsAsLong D.medium }
    ensures synced_or_same { FoundSyncedOrSame D.medium }
    ensures no_worker { NoWorkerComes D.medium }
{}

/// Lives that do what the calls of a worker are proved to do go on as one that was never stopped.
/// So they do from whatever was promised so far, on a disk that keeps it.
pub fn lives_go_on<D: Disk>()
    ensures lives { LivesGoOn D.medium }
    ensures promised { PromisedLivesGoOn D.medium }
{}

/// The same of a disk in a file, of whatever image is on it as it is opened: one without a worker,
/// or one that holds all that was promised. Zeros, of which a file is made, are without one. Who
/// opens the file after a cut finds what the cut has left.
pub fn lives_on_files_go_on<F>()
    ensures lives { LivesOnFilesGoOn F }
    ensures promised { PromisedLivesOnFilesGoOn F }
    ensures made { ZerosAreBlank }
    ensures found { OpenedAfterCut F }
{}

/// A disk stands for what the module reaches, by an image and by records in the order of their
/// steps. Both are of the version to which the answers of the image lead, and the head says so.
pub fn disks_stand_for_what_is_reached()
    ensures reached { StandsForWhatIsReached }
    ensures in_order { RecordsAscend }
    ensures parts { StandsByItsParts }
    ensures versions { HeadsTellWidenings }
{}

/// All that leads to where a disk is has numbers below their ends.
pub fn numbers_only_grow()
    ensures runs { RunsKeepNumbers }
    ensures records { RecordsKeepNumbers }
    ensures saved { SavedAreNumbered }
{}

/// A disk stands for a worker by one generation, one spelling of its module and one configuration.
/// Without the marks of one it stands for none.
pub fn disks_stand_by_one_generation()
    ensures blank { BlankStandsForNone }
    ensures process_image { NoLaterProcessImage }
    ensures sector { NoLaterSector }
    ensures record { NoLaterRecord }
    ensures one { OneGeneration }
    ensures spelled { OneSpelledWorker }
    ensures within { StandsWithin }
    ensures blank_within { BlankIsWithin }
    ensures examples { DiskExamples }
{}

/// What an image stands for is in its first sectors, as many as the worker has. So a copy of these
/// stands for the same, and for nothing else. It holds what was promised, and lives on it go on.
pub fn disks_stand_by_their_first_sectors<F>()
    ensures decide { FirstSectorsDecide }
    ensures contents { StandsByItsContents }
    ensures held { TheSameIsHeld }
    ensures within { TheSameIsWithin }
    ensures lives { LivesOnCopiesGoOn F }
{}

/// Events that break a promise are refused, whatever was promised and wherever a life is.
pub fn refused_events()
    ensures { (m : Module) (config : Settings) (so_far : Promise) (stage : Stage)
        → RefusedEvents m config so_far stage }
{}

/// Workers that nobody wants are refused.
pub fn refused_workers()
    ensures { (m : Module) (config : Settings) → RefusedWorkers m config }
{}

/// Upgrades that nobody wants are refused, wherever a life is and in whole lives. So are
/// slices, checkpoints, openings and questions that take the wrong version.
pub fn refused_upgrades()
    ensures events { (m : Module) (config : Settings) (so_far : Promise) (stage : Stage)
        → RefusedUpgrades m config so_far stage }
    ensures lives { (m : Module) (config : Settings) → RefusedUpgraders m config }
{}

/// Honest stories are satisfied. They have a restart from the journal, one after a checkpoint, one
/// after a recovery that was cut, and a refused line told again.
pub fn honest_stories()
    ensures { (m : Module) (config : Settings) (t : Teller m config) → HonestStories t }
{}

/// So are those with an upgrade that is done, or cut before its head is on the disk, or after it.
pub fn honest_upgrades()
    ensures { (m : Module) (config : Settings) (t : Teller m config) (u : Upgraded t)
        → HonestUpgrades t u }
{}

/// Batches that nobody wants are refused, wherever a life is and in whole lives. So are slices that
/// tell a line as only a batch may.
pub fn refused_batches()
    ensures events { (m : Module) (config : Settings) (so_far : Promise) (stage : Stage)
        → RefusedBatches m config so_far stage }
    ensures lives { (m : Module) (config : Settings) → RefusedBatchLives m config }
{}

/// Honest batches are satisfied. They have two questions before two lines, a cut in the barrier
/// between, and a line that waits where the source has none, or fails.
pub fn honest_batches()
    ensures { (m : Module) (config : Settings) (t : Teller m config) → HonestBatches t }
{}

/// Two lives with a cut between them, what events promise, where a life is after them, and what
/// calls may say.
pub fn worked_examples()
    ensures lives { LivesExamples }
    ensures promises { PromiseExamples }
    ensures courses { CourseExamples }
    ensures replies { (config : Settings) → ReplyExamples config }
{}

/// Lives of a module that writes a line go on, from its beginning to its end, and so do those that
/// upgrade it before its first step, or after its last one. Others don't. It also goes on from what
/// another worker has left.
pub fn hello_goes_on()
    ensures lives { (config : Settings) → HelloLives config }
    ensures upgrades { (config : Settings) → HelloUpgrades config }
    ensures successors { (config : Settings) → HelloSuccessors config }
{}

/// Events that are none of a module that tells what it is asked.
pub fn echo_is_held_to_its_answers()
    ensures { (config : Settings) → EchoRefusals config }
{}

/// Lives on a disk on which a successor was created go on from what the worker before it has left.
/// That stays the first of its kept answers, and a worker that succeeds none has no such answer.
pub fn successors_go_on<D: Disk>()
    ensures lives { SuccessorsGoOn D.medium }
    ensures origins { OriginsStay }
    ensures plain { PlainSucceedNone }
{}

/// What a worker and its successor told is one history. So is what any number of them told, one
/// after another: no number has two texts, and none is left out.
pub fn successors_tell_one_history()
    ensures two { Succession }
    ensures all { SuccessiveTellAll }
{}

/// Events that are none of a successor are refused, wherever a life is.
pub fn refused_successors()
    ensures { (m : Module) (config : Settings) (v : Version) (o : Origin) (stage : Stage)
        → RefusedSuccessors m config v o stage }
{}

/// What is promised of a successor, when a worker may have one, and what is one history.
pub fn succession_examples()
    ensures promises { SuccessionExamples }
    ensures rest { (guest : Guest) (p : ProcessState) → RestExamples guest p }
    ensures histories { HistoryExamples }
{}
