//! Laws of what the steps of journal and snapshots leave of a disk that stands for a worker, and
//! laws of stores. The functions do nothing: what they ensure is the law.
//!
//! # Choices
//!
//! - **The laws of a worker's disk are a module of this crate.** In a crate of their own they
//!   doubled the paths below `worker`.

ghost use Rattle.worker_store.specs.laws.Savepoints.{IsAtItsSavepoint, PointStands};
ghost use Rattle.worker_store.specs.laws.Savepoints.{PointStandsAlone, ReadAlikeIsAtSavepoint};
ghost use Rattle.worker_store.specs.laws.Barriers.{RecordedOnce, BarrierLeavesFront};
ghost use Rattle.worker_store.specs.laws.Barriers.{BarrierLeavesAll, FrontStands, BarrierStands};
ghost use Rattle.worker_store.specs.laws.Commits.{NewPointBegins, PointIsReady, FillingKeepsPoint};
ghost use Rattle.worker_store.specs.laws.Commits.{CommitLeavesOneOfTwo, CommitBeginsNext};
ghost use Rattle.worker_store.specs.laws.Commits.{FillingKeepsWorker, CommitKeepsWorker};
ghost use Rattle.worker_store.specs.laws.Commits.{ReplacingBegins};
ghost use Rattle.worker_store.specs.laws.Creations.{NoSuperIsBlank, ZerosKeepBlank};
ghost use Rattle.worker_store.specs.laws.Creations.{ZerosTakeSuper, RunsKeepNoSuper};
ghost use Rattle.worker_store.specs.laws.Creations.{ZerosAwaitHead, ZeroRunsAwaitHead};
ghost use Rattle.worker_store.specs.laws.Creations.{FillingAwaitsHead, FirstCommitKeepsNoSuper};
ghost use Rattle.worker_store.specs.laws.Creations.{FirstCommitAwaitsSuper, SuperBegins};
ghost use Rattle.worker_store.specs.laws.Creations.{WholeSuperBegins, FreshStandsForNone};
ghost use Rattle.worker_store.specs.laws.Journaled.{BarrierAtAnyMoment, BarrierInTheEnd};
ghost use Rattle.worker_store.specs.laws.Journaled.{AppendGoesOn, StaysJournaled, BeginsJournaled};
ghost use Rattle.worker_store.specs.laws.Moments.{FillAtAnyMoment, CommitAtAnyMoment};
ghost use Rattle.worker_store.specs.laws.Moments.{CommitInTheEnd, ZerosAtAnyMoment, ZerosInTheEnd};
ghost use Rattle.worker_store.specs.laws.Moments.{RunAtAnyMoment, FirstFillAtAnyMoment};
ghost use Rattle.worker_store.specs.laws.Moments.{FirstCommitAtAnyMoment, FirstCommitInTheEnd};
ghost use Rattle.worker_store.specs.laws.Moments.{ZeroRunsInTheEnd, SuperAtAnyMoment};
ghost use Rattle.worker_store.specs.laws.Moments.{SuperInTheEnd, FillKeepsAtAnyMoment};
ghost use Rattle.worker_store.specs.laws.Moments.{CommitKeepsAtAnyMoment, CommitKeepsInTheEnd};
ghost use Rattle.worker_store.specs.laws.Readings.{ReadsTheModule, FindsThePoint, ReadsThePoint};
ghost use Rattle.worker_store.specs.laws.Readings.{ReadsUndamaged, FindsNewestPoint};
ghost use Rattle.worker_store.specs.laws.Readings.{HoldsTheRecords};
ghost use Rattle.worker_store.specs.laws.Carried.{HeldAtHoldsPromise, PromiseIsHeldAt, LessIsHeld};
ghost use Rattle.worker_store.specs.laws.Carried.{MarkedIsHeld, BlankIsUnopened, StaysCarried};
ghost use Rattle.worker_store.specs.laws.Carried.{NextIsHeld, FreshIsHeld, SavedIsHeld};
ghost use Rattle.worker_store.specs.laws.Carried.{OpeningIsHeld, PointIsAt, PointOpens};
ghost use Rattle.worker_store.specs.laws.Carried.{CarriedKeeps, BarrierCarries, BarrierCarriesOn};
ghost use Rattle.worker_store.specs.laws.Carried.{CommitCarries, SavepointCarries};
ghost use Rattle.worker_store.specs.laws.Carried.{CreationCarries, BeginsCarried};
ghost use Rattle.worker_store.specs.laws.Raised.{AllSyncsAreHeld, QuietSyncsAreHeld};
ghost use Rattle.worker_store.specs.laws.Raised.{AnsweredSyncsAreHeld, AnswerIsOnRecord};
ghost use Rattle.worker_store.specs.laws.Raised.{MovedSyncsAreHeld};
ghost use Rattle.worker_store.specs.laws.Raised.{ToldCarries, AskedCarries, EndedCarries};
ghost use Rattle.worker_store.specs.laws.Raised.{MoreCarries, AppendCarries, CarriedIsReached};
ghost use Rattle.worker_store.specs.laws.AtHand.{ShownIsSaved, ShownIsNumbered, NextIsAtHand};
ghost use Rattle.worker_store.specs.laws.AtHand.{FirstIsAtHand, VersionStays};
ghost use Rattle.worker_store.specs.laws.Succeeding.{SuccessorIsAtHand, SuccessorHoldsPromise};
ghost use Rattle.worker_store.specs.laws.Acts.{CheckpointsSave, SavingEndsAlike, ActsMayFail};
ghost use Rattle.worker_store.specs.laws.Acts.{UpgradesWiden, UpgradesSave};
ghost use Rattle.worker_store.specs.laws.Saves.{SaveAtAnyMoment, SaveCarries, DoneSavesCarry};
ghost use Rattle.worker_store.specs.laws.Saves.{FailedSavesCarry, EndsPromiseNoLess};
ghost use Rattle.worker_store.specs.laws.Anew.{CreationOpens};
ghost use Rattle.worker_store.specs.laws.Recovered.{RetoldIsHeld, RecoveryOpens};
ghost use Rattle.worker_store.specs.laws.Laws.{AppendStores, ProcessImagesFitAreas};

use sector_disk::Disk;
use state_image::laws::process_images_have_room;

/// What a disk stands by, apart from the disk, says what it stands for.
pub fn disks_are_at_savepoints()
    ensures point { IsAtItsSavepoint }
    ensures stands { PointStands }
    ensures alone { PointStandsAlone }
    ensures alike { ReadAlikeIsAtSavepoint }
{}

/// Whatever a barrier has left, the disk stands for a prefix of the pending records. After Ok it
/// stands for all of them. One answer more is one record more.
pub fn barriers_leave_fronts()
    ensures recorded { RecordedOnce }
    ensures front { BarrierLeavesFront }
    ensures all { BarrierLeavesAll }
    ensures stands { FrontStands }
    ensures answers { BarrierStands }
{}

/// While an area is filled the disk stands for the same. Whatever a commit has left, it stands for
/// that or begins at the new snapshot, without records.
pub fn commits_leave_one_of_two()
    ensures begins { NewPointBegins }
    ensures ready { PointIsReady }
    ensures filled { FillingKeepsPoint }
    ensures committed { CommitLeavesOneOfTwo }
    ensures replaced { CommitBeginsNext }
{}

/// Until its super is whole, a disk on which a worker is created is blank.
pub fn creations_begin_blank()
    ensures blank { NoSuperIsBlank }
    ensures torn { ZerosKeepBlank }
    ensures zeros { ZerosTakeSuper }
    ensures behind { RunsKeepNoSuper }
    ensures awaits { ZerosAwaitHead }
    ensures runs { ZeroRunsAwaitHead }
    ensures filled { FillingAwaitsHead }
    ensures committed { FirstCommitKeepsNoSuper }
{}

/// Once the super is whole, over all else, it stands for no answers at step 0.
pub fn creations_end_fresh()
    ensures awaits { FirstCommitAwaitsSuper }
    ensures torn { SuperBegins }
    ensures whole { WholeSuperBegins }
    ensures fresh { FreshStandsForNone }
{}

/// The calls of a journal, on a disk of which each cut leaves what stands for the worker.
pub fn journals_carry_workers<D: Disk>()
    ensures barrier { BarrierAtAnyMoment D.medium }
    ensures durable { BarrierInTheEnd D.medium }
    ensures appended { AppendGoesOn D.medium }
    ensures stays { StaysJournaled D.medium }
    ensures begins { BeginsJournaled D.medium }
{}

/// The calls of a commit, on such a disk.
pub fn commits_carry_workers<D: Disk>()
    ensures filled { FillAtAnyMoment D.medium }
    ensures committed { CommitAtAnyMoment D.medium }
    ensures replaced { CommitInTheEnd D.medium }
{}

/// The calls of a creation, on a disk without a worker.
pub fn creations_carry_none<D: Disk>()
    ensures torn { ZerosAtAnyMoment D.medium }
    ensures zeros { ZerosInTheEnd D.medium }
    ensures behind { RunAtAnyMoment D.medium }
    ensures runs { ZeroRunsInTheEnd D.medium }
    ensures filled { FirstFillAtAnyMoment D.medium }
    ensures committed { FirstCommitAtAnyMoment D.medium }
    ensures awaits { FirstCommitInTheEnd D.medium }
    ensures super_torn { SuperAtAnyMoment D.medium }
    ensures super_whole { SuperInTheEnd D.medium }
{}

/// The same of a commit of the next generation, whatever the disk stands by for a worker.
pub fn commits_keep_what_stands()
    ensures filled { FillingKeepsWorker }
    ensures committed { CommitKeepsWorker }
    ensures replaced { ReplacingBegins }
{}

/// So it is with all that a cut may leave.
pub fn recoveries_carry_workers<D: Disk>()
    ensures filled { FillKeepsAtAnyMoment D.medium }
    ensures committed { CommitKeepsAtAnyMoment D.medium }
    ensures replaced { CommitKeepsInTheEnd D.medium }
{}

/// What is read of a disk that stands for a worker is what it stands by.
pub fn disks_give_what_they_stand_by()
    ensures module_read { ReadsTheModule }
    ensures head { FindsThePoint }
    ensures bytes { ReadsThePoint }
    ensures undamaged { ReadsUndamaged }
    ensures newest { FindsNewestPoint }
    ensures records { HoldsTheRecords }
{}

/// What is at a savepoint holds of a promise what the savepoint and its records hold. A next
/// savepoint holds that too, and what an opening or the end of an act that saves promises there.
pub fn savepoints_hold_promises()
    ensures stands { HeldAtHoldsPromise }
    ensures held { PromiseIsHeldAt }
    ensures marked { MarkedIsHeld }
    ensures blank { BlankIsUnopened }
    ensures less { LessIsHeld }
    ensures next { NextIsHeld }
    ensures fresh { FreshIsHeld }
    ensures saved { SavedIsHeld }
    ensures opening { OpeningIsHeld }
    ensures at { PointIsAt }
    ensures opens { PointOpens }
{}

/// The disk of an open worker keeps what is promised. So it does between its calls, while each goes
/// on, and when it has ended, by Ok or by any error.
pub fn disks_carry_promises<D: Disk>()
    ensures keeps { CarriedKeeps D.medium }
    ensures stays { StaysCarried D.medium }
    ensures barrier { BarrierCarries D.medium }
    ensures durable { BarrierCarriesOn D.medium }
    ensures commit { CommitCarries D.medium }
    ensures savepoint { SavepointCarries D.medium }
    ensures creation { CreationCarries D.medium }
    ensures begins { BeginsCarried D.medium }
{}

/// Which syncs of the guest need no answer but those on the disk.
pub fn syncs_are_held()
    ensures all { AllSyncsAreHeld }
    ensures quiet { QuietSyncsAreHeld }
    ensures moved { MovedSyncsAreHeld }
    ensures answered { AnsweredSyncsAreHeld }
    ensures on_record { AnswerIsOnRecord }
{}

/// What the disk of an open worker keeps stays so while events promise more.
pub fn events_carry_promises<D: Disk>()
    ensures told { ToldCarries D.medium }
    ensures asked { AskedCarries D.medium }
    ensures more { MoreCarries D.medium }
    ensures ended { EndedCarries D.medium }
    ensures appended { AppendCarries D.medium }
    ensures reached { CarriedIsReached D.medium }
{}

/// What is saved of the process at hand is each process that it shows, and of the version of the
/// last savepoint where nothing else was kept. It is a savepoint of the next generation, and one
/// that begins is a first savepoint.
pub fn processes_are_savepoints()
    ensures saved { ShownIsSaved }
    ensures numbered { ShownIsNumbered }
    ensures version { VersionStays }
    ensures next { NextIsAtHand }
    ensures first { FirstIsAtHand }
{}

/// A process that goes on from what another worker has left is a first savepoint. A disk that
/// begins there holds all that is promised of its worker.
pub fn successors_are_savepoints()
    ensures first { SuccessorIsAtHand }
    ensures holds { SuccessorHoldsPromise }
{}

/// A barrier and a commit, one after the other, save a worker. At each moment its disk keeps what
/// is promised. In the end it keeps what the act promises that saves it, by Ok or by any error.
pub fn saves_carry_promises<D: Disk>()
    ensures moment { SaveAtAnyMoment D.medium }
    ensures carries { SaveCarries D.medium }
    ensures checkpoint { CheckpointsSave }
    ensures upgrade { UpgradesSave }
    ensures widening { UpgradesWiden }
    ensures pleads { ActsMayFail }
    ensures alike { SavingEndsAlike }
    ensures done { DoneSavesCarry D.medium }
    ensures failed { FailedSavesCarry D.medium }
    ensures ends { EndsPromiseNoLess }
{}

/// A creation keeps what is promised at each moment. In the end its disk holds what the opening
/// promises.
pub fn creations_open_workers<D: Disk>()
    ensures { CreationOpens D.medium }
{}

/// So does a recovery, also once lines were told again. In the end its disk holds what its opening
/// promises.
pub fn recoveries_open_workers<D: Disk>()
    ensures told { RetoldIsHeld }
    ensures opens { RecoveryOpens D.medium }
{}

/// A store to which the record of an answer is appended is that of the worker that has taken it.
pub fn appends_carry_stores<D: Disk>()
    ensures { AppendStores D.medium }
{}

/// The image of a well-typed process is never longer than its area.
pub fn process_images_fit_areas()
    ensures { ProcessImagesFitAreas }
{
    process_images_have_room();
}
