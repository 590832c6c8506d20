//! Laws of the journal.

ghost use Rattle.journal.specs.laws.Examples.{PackingExamples, BarrierCallExamples};
ghost use Rattle.journal.specs.laws.Examples.{FittingExamples, HoldingExamples, BarrierExamples};
ghost use Rattle.journal.specs.laws.Examples.{LaterExamples, JournalHoldsExamples};
ghost use Rattle.journal.specs.laws.Filled.{FillsWhatIsStored, FillsWhatIsHeld};
ghost use Rattle.journal.specs.laws.Laws.{FreshHoldsNone, HoldsWhatIsStored, HoldsNoneOfLater};
ghost use Rattle.journal.specs.laws.Laws.{HoldsOneList, ScansWhatIsHeld};

/// Worked examples: bytes in sectors, a barrier's calls, records that fit, what is stored, what a
/// journal holds, what a barrier may leave, and where a later generation is shown.
pub fn worked_examples()
    ensures packing { PackingExamples }
    ensures calls { BarrierCallExamples }
    ensures fitting { FittingExamples }
    ensures holding { HoldingExamples }
    ensures journals { JournalHoldsExamples }
    ensures barriers { BarrierExamples }
    ensures later { LaterExamples }
{}

/// Where a journal begins, and that it holds what is stored in it, and nothing of a generation that
/// no sector shows. It holds one list of records, and that is what a scan gives of any bytes.
pub fn what_is_held_is_scanned()
    ensures fresh { FreshHoldsNone }
    ensures stored { HoldsWhatIsStored }
    ensures none { HoldsNoneOfLater }
    ensures one { HoldsOneList }
    ensures scanned { ScansWhatIsHeld }
{}

/// Where records are in so many sectors, a count of those that are filled gives as many. So a
/// barrier has the others of the journal left.
pub fn what_is_held_fills()
    ensures stored { FillsWhatIsStored }
    ensures held { FillsWhatIsHeld }
{}
