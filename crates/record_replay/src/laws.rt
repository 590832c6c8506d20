//! Laws of lists of calls, and of records. The functions do nothing: what they ensure is the law.

ghost use Rattle.record_replay.specs.rules.Calls.{Asked, Released};
ghost use Rattle.record_replay.specs.laws.Laws.{AreInOrder, ExchangesAreInOrder, LinesAreInOrder};
ghost use Rattle.record_replay.specs.laws.Laws.{RecordsAreRuns, OneProcessIsRecorded};
ghost use Rattle.record_replay.specs.laws.Laws.{RefusedReplaysAreOnTheWay};

use crate::{Outlet, Source};

/// Questions to any source follow one another.
pub fn questions_follow_one_another<S: Source>()
    ensures { AreInOrder (Asked S.gives) }
{}

/// Releases to any outlet follow one another, and their numbers do.
pub fn releases_follow_one_another<O: Outlet>()
    ensures order { AreInOrder (Released O.takes) }
    ensures numbers { LinesAreInOrder }
{}

/// Calls of a source and an outlet follow one another, in one order.
pub fn exchanges_follow_one_another<S: Source, O: Outlet>()
    ensures { ExchangesAreInOrder S.gives O.takes }
{}

/// Records lead from a process to one process at most, which is reached on their answers.
pub fn records_lead_to_one_process()
    ensures runs { RecordsAreRuns }
    ensures one { OneProcessIsRecorded }
{}

/// Where records lead to a process, a replay that is refused was on the way there. So it has told
/// lines of that process alone, and no record was at fault.
pub fn refused_replays_are_on_the_way()
    ensures { RefusedReplaysAreOnTheWay }
{}
