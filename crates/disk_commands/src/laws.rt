//! Laws of answers, printed lines and disks. The functions do nothing: what they ensure is the law.
//!
//! # Promises
//!
//! - `laws::statuses_have_causes`: what each of these statuses comes from, and that a reader which
//!   fails is told (`SaysOnDisk`). Where a number, memory or an answer was wanting, each line of
//!   the worker was told (`HasToldItsLines`). `laws::refusals_have_reasons`: why the source of a
//!   run refuses a question. `laws::answers_come_from_the_lines`: what it answers, and when it has
//!   none yet. `laws::largest_disks_are_pictured`: no worker's disk is larger than a picture.
//!   `laws::copies_stand_for_the_same`: a copy that is finished stands for the worker of its disk,
//!   and one that is cut off stands for it or has none.
//!
//! # Choices
//!
//! - **The law of a run is of one in which the power isn't cut.** Then no call of the disk is to be
//!   counted. A run that is killed returns nothing, so no clause of it is ever read.

ghost use Rattle.worker.specs.laws.Replies.{LivesEndAsSaid};
ghost use Rattle.worker.specs.laws.Uncut.{LivesGoOnUncut};
ghost use Rattle.command_words.specs.laws.Printed.{TakenLinesArePrinted};
ghost use Rattle.disk_commands.specs.laws.Answered.{AnswersComeFromTheLines, NoneIsLeftAtTheEnd};
ghost use Rattle.disk_commands.specs.laws.Copied.{CopiesStandForTheSame, SavedFilesStandForTheSame};
ghost use Rattle.disk_commands.specs.laws.Counted.{CountsWhatItTakes, HeedsAsItPrints};
ghost use Rattle.disk_commands.specs.laws.DiskCauses.{RefusalsHaveReasons, StatusesHaveCauses};
ghost use Rattle.disk_commands.specs.laws.LargestDisks.{LargestDisksArePictured};
ghost use Rattle.disk_commands.specs.laws.Released.{ReleasedLinesArePrinted};
ghost use Rattle.disk_commands.specs.laws.Released.{UnwrittenIsAFailedWrite};
ghost use Rattle.disk_commands.specs.rules.ServedOnDisk.{handing};

use record_replay::Outlet;
use sector_disk::Disk;
use worker::laws::process_images_fit_areas;

/// A picture has room for the disk of each worker whose settings and module are within their
/// limits.
pub fn largest_disks_are_pictured()
    ensures { LargestDisksArePictured }
{}

/// An outlet that prints, and took each of some lines, has printed them, and nothing else.
pub fn taken_lines_are_printed()
    ensures taken { TakenLinesArePrinted }
    ensures released { ReleasedLinesArePrinted }
{}

/// An outlet that prints and counts has counted the lines that it took, and printed as any other.
pub fn taken_lines_are_counted()
    ensures counted { CountsWhatItTakes }
    ensures heeds { HeedsAsItPrints }
{}

/// A run whose lines are printed answers `Unwritten` where a write of the output has failed, and
/// only where one of the output or of the error output has.
pub fn unwritten_is_a_failed_write()
    ensures { UnwrittenIsAFailedWrite }
{}

/// All that `serve` does of a worker that it has opened is one life. Where the power isn't cut
/// in it, it goes on from all that was promised. Where there is no error, its last slice has
/// answered how the process is that all kept answers lead to.
pub fn lives_on_disk_go_on<D: Disk, O: Outlet>()
    ensures goes_on { LivesGoOnUncut D.medium handing O.takes }
    ensures ended { LivesEndAsSaid D.medium handing O.takes }
{
    process_images_fit_areas();
}

/// Of all that is asked in a life on a disk, the answered requests are those of the reader's lines
/// after the ones that the worker has taken, in order and none left out. Times are the fixed one,
/// where one is fixed. Random bytes are the next ones of the stream of the worker's generation.
/// There is no answer yet only to a request for which no line is left.
pub fn answers_come_from_the_lines()
    ensures answers { AnswersComeFromTheLines }
    ensures none_left { NoneIsLeftAtTheEnd }
{}

/// Where a source of the program refuses a question in a life, it has a reason. The next line can't
/// be taken, its reader has failed, or memory is wanting; or there is no clock, or no word is left.
pub fn refusals_have_reasons()
    ensures { RefusalsHaveReasons }
{}

/// Of each exit status of a run on a disk, what it comes from. Where a number, memory or an answer
/// was wanting, each line that the process had written by then was told.
pub fn statuses_have_causes<D: Disk, O: Outlet>()
    ensures { StatusesHaveCauses D.medium O.takes }
{}

/// A copy of a disk that stands for a worker, as `save_on` makes it on zeros, stands for the same
/// once the status is `Done`. What a cut leaves of it before that has no worker, or stands for the
/// same. So it is with the file that `save_file` makes of a disk, or of a picture of it.
pub fn copies_stand_for_the_same<D: Disk, C: Disk, F>()
    ensures copies { CopiesStandForTheSame D.medium C.medium }
    ensures files { SavedFilesStandForTheSame D.medium F }
{}
