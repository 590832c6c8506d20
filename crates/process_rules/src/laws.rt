//! Laws of what a process reaches. The functions do nothing: what they ensure is the law.

ghost use Rattle.std.specs.Prelude.{List};
ghost use Rattle.process_rules.specs.laws.Laws.{OneProcess, OneProcessRun, RunsJoin, RunsCount};
ghost use Rattle.process_rules.specs.laws.Laws.{RunsEmit, QuietRunsJoin, QuietRunsAreRuns};
ghost use Rattle.process_rules.specs.laws.Laws.{WideningIsAll, WidenedOnce, StepsAreQuiet};
ghost use Rattle.process_rules.specs.laws.Laws.{LastStepEnds, TrapEnds, ReachedAreConfigured};
ghost use Rattle.process_rules.specs.laws.Laws.{NodesAreFew, ReachedVersions, ReachedInputIsShort};
ghost use Rattle.process_rules.specs.laws.Laws.{ReachedHaveWasiStates, ReachedAreCounted};
ghost use Rattle.process_rules.specs.laws.Laws.{ReachedAreClosed, ReachedAreTyped, SucceedsFirst};
ghost use Rattle.process_rules.specs.laws.Laws.{SuccessorsHaveComeFrom, EachMaySucceed};
ghost use Rattle.process_rules.specs.laws.Laws.{OneSuccessor, AnswersJoin};
ghost use Rattle.wasi_abi.specs.rules.Configs.{Settings};
ghost use Rattle.process_rules.specs.Runs.{Kept};
ghost use Rattle.process_rules.specs.laws.Examples.{HelloEnds, EchoEnds, IdleEnds, TrappingEnds};
ghost use Rattle.process_rules.specs.laws.BehindExamples.{SyncingOwes};
ghost use Rattle.process_rules.specs.laws.WideningExamples.{HelloIsWidened, EchoWantsMore};
ghost use Rattle.process_rules.specs.laws.SucceedingExamples.{HelloGoesOn};

/// The same answers lead to the same process.
pub fn one_process_is_reached()
    ensures { OneProcess }
{}

/// So many steps on the same answers lead from a process to one process.
pub fn one_run_is_taken()
    ensures { OneProcessRun }
{}

/// A run and what it leads on to are one run.
pub fn runs_join()
    ensures { RunsJoin }
{}

/// A run counts its steps, and takes back no line.
pub fn runs_count_and_emit()
    ensures count { RunsCount }
    ensures emit { RunsEmit }
{}

/// After the same steps a widened process is the other one but for the widening. None is widened
/// twice.
pub fn widening_is_all()
    ensures all { WideningIsAll }
    ensures once { WidenedOnce }
{}

/// What goes on from another process does so once, before its first step, and keeps the lines that
/// were there. It may do so where it has room for the files, and is then one process. Answers are
/// added up, those before it too.
pub fn successors_come_first()
    ensures first { SucceedsFirst }
    ensures on { SuccessorsHaveComeFrom }
    ensures each { EachMaySucceed }
    ensures one { OneSuccessor }
    ensures answers { AnswersJoin }
{}

/// So are steps after which nothing is owed, which are a run without answers that emits no line.
pub fn quiet_runs_join()
    ensures joined { QuietRunsJoin }
    ensures runs { QuietRunsAreRuns }
{}

/// After rules that ask the host for nothing, and don't end the process, nothing is owed.
pub fn steps_are_quiet()
    ensures { StepsAreQuiet }
{}

/// The counted step that leads to the program's end is the last step.
pub fn last_step_ends()
    ensures { LastStepEnds }
{}

/// So is the counted step that traps.
pub fn trap_ends()
    ensures { TrapEnds }
{}

/// A reached process is configured as at the beginning, and has the version to which its kept
/// answers lead. It has few nodes: one a step at most, beside the root and the number that comes
/// next. At most one request waits to be read.
pub fn reached_hosts_are_bounded()
    ensures configured { ReachedAreConfigured }
    ensures versions { ReachedVersions }
    ensures few { NodesAreFew }
    ensures input { ReachedInputIsShort }
{}

/// A reached process has counted its steps and its answers: one a step at most, and its widening.
/// It has ended exactly where its program has come to its end, and has then no unfinished line.
pub fn reached_processes_are_counted()
    ensures counted { ReachedAreCounted }
    ensures closed { ReachedAreClosed }
{}

/// What a valid module reaches that can be linked is typed and reduced, and exits with a code of 32
/// bits.
pub fn reached_processes_are_typed()
    ensures { ReachedAreTyped }
{}

/// What a valid module reaches has a host, where its arguments and environment are bytes.
pub fn reached_processes_have_hosts()
    ensures { ReachedHaveWasiStates }
{}

/// Whole modules come to their ends, under any configuration. One writes a line and exits with a
/// code, and one writes what it reads. One does nothing, and one traps. A fifth syncs at one step
/// and writes one line, each on exactly so many answers.
pub fn worked_examples()
    ensures hello { (config : Settings) → HelloEnds config }
    ensures echo { (config : Settings) → EchoEnds config }
    ensures idle { (config : Settings) → IdleEnds config }
    ensures trapping { (config : Settings) → TrappingEnds config }
    ensures syncing { (config : Settings) → SyncingOwes config }
{}

/// So do those that are widened on the way, and at the end. A request that was too long is wanted
/// then.
pub fn worked_widenings()
    ensures hello { (config : Settings) → HelloIsWidened config }
    ensures echo { (config : Settings) → EchoWantsMore config }
{}

/// So does one that goes on from another process, with one line more. Without room for the files it
/// reaches nothing.
pub fn worked_successors()
    ensures { (config : Settings) → HelloGoesOn config }
{}
