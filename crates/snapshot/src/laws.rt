//! Laws of snapshots.

ghost use Rattle.snapshot.specs.laws.Examples.{NextCanFollow, ReadyExamples, CommitCallExamples};
ghost use Rattle.snapshot.specs.laws.Examples.{AreaExamples, StateExamples};
ghost use Rattle.snapshot.specs.laws.Laws.{DiskImageShowsOne, CanBeginAgain, FailsForGood};

/// A disk shows one newest snapshot at most, and a damaged one or none only where it shows no whole
/// one.
pub fn newest_is_one()
    ensures { DiskImageShowsOne }
{}

/// Once an image is the newest one, a disk is ready for the next. Where a commit has left the one
/// before it, the disk is ready for the same generation again.
pub fn next_can_follow()
    ensures next { NextCanFollow }
    ensures again { CanBeginAgain }
{}

/// From its first error on each call fails.
pub fn failures_are_for_good()
    ensures { FailsForGood }
{}

/// Worked examples: which head a disk is ready for, a commit's calls, and what it may change.
pub fn worked_examples()
    ensures ready { ReadyExamples }
    ensures calls { CommitCallExamples }
    ensures areas { AreaExamples }
    ensures states { StateExamples }
{}
