//! Laws of what a worker's calls do, as events of a life. The functions do nothing: what they
//! ensure is the law.

ghost use Rattle.wasm_syntax.specs.declared.module.Module.{Module};
ghost use Rattle.wasi_abi.specs.rules.Configs.{Settings};
ghost use Rattle.process_rules.specs.Processes.{Guest};
ghost use Rattle.worker_store.specs.laws.Underway.{StepsGoOn, LinesAreTold, TakenLinesGoOn};
ghost use Rattle.worker_store.specs.laws.Underway.{RefusedLinesBreak, QuestionsAreAsked};
ghost use Rattle.worker_store.specs.laws.Underway.{AnswersGoOn, AnswersAreKept, OtherAnswersBreak};
ghost use Rattle.worker_store.specs.laws.Underway.{LinesAreLeft, LeftIsBroken};
ghost use Rattle.worker_store.specs.laws.Telling.{AllLinesAreTold, LinesAreToldInVain};
ghost use Rattle.worker_store.specs.laws.Telling.{LeftLinesAreTold, LeftLinesAreToldInVain};
ghost use Rattle.worker_store.specs.laws.CallEnds.{SpentSlicesEnd, EndedSlicesEnd};
ghost use Rattle.worker_store.specs.laws.CallEnds.{WaitingSlicesEnd, FailedSlicesEnd};
ghost use Rattle.worker_store.specs.laws.CallEnds.{LateFaultsEnd, DoneSavesEnd, FailedSavesEnd};
ghost use Rattle.worker_store.specs.laws.CallEnds.{SlicesBegin, CallsLeaveBetween};
ghost use Rattle.worker_store.specs.laws.Pieces.{PartsJoin, PartsAreForetold, EndsJoin};
ghost use Rattle.worker_store.specs.laws.Reopening.{LinesAreRetold, LinesAreRetoldInVain};
ghost use Rattle.worker_store.specs.laws.Reopening.{LivesOpen, FreshHoldsNothing, FreshLivesBegin};

/// In a slice that is under way steps go on, and each line that is told is the next one.
pub fn slices_tell_lines()
    ensures steps { (m : Module) (config : Settings) (guest : Guest) → StepsGoOn m config guest }
    ensures told { (m : Module) (config : Settings) (guest : Guest)
        → LinesAreTold m config guest }
    ensures taken { (m : Module) (config : Settings) (guest : Guest)
        → TakenLinesGoOn m config guest }
    ensures refused { (m : Module) (config : Settings) (guest : Guest)
        → RefusedLinesBreak m config guest }
    ensures all { (m : Module) (config : Settings) (guest : Guest)
        → AllLinesAreTold m config guest }
    ensures in_vain { (m : Module) (config : Settings) (guest : Guest)
        → LinesAreToldInVain m config guest }
{}

/// Lines that wait in a batch are told also behind its last question.
pub fn batches_tell_lines()
    ensures left { (m : Module) (config : Settings) (guest : Guest)
        → LinesAreLeft m config guest }
    ensures broken { (m : Module) (config : Settings) (guest : Guest)
        → LeftIsBroken m config guest }
    ensures told { (m : Module) (config : Settings) (guest : Guest)
        → LeftLinesAreTold m config guest }
    ensures in_vain { (m : Module) (config : Settings) (guest : Guest)
        → LeftLinesAreToldInVain m config guest }
    ensures fails { (m : Module) (config : Settings) (guest : Guest)
        → LateFaultsEnd m config guest }
{}

/// Each question keeps what was promised. An answer that fits is kept, whether the process takes it
/// or not; after any other the process is where it was.
pub fn slices_ask_questions()
    ensures asked { (m : Module) (config : Settings) (guest : Guest)
        → QuestionsAreAsked m config guest }
    ensures answered { (m : Module) (config : Settings) (guest : Guest)
        → AnswersGoOn m config guest }
    ensures kept { (m : Module) (config : Settings) (guest : Guest)
        → AnswersAreKept m config guest }
    ensures others { (m : Module) (config : Settings) (guest : Guest)
        → OtherAnswersBreak m config guest }
{}

/// Each way in which a slice, or an act that saves, is over keeps what was promised.
pub fn calls_end()
    ensures spent { (m : Module) (config : Settings) (guest : Guest)
        → SpentSlicesEnd m config guest }
    ensures ended { (m : Module) (config : Settings) (guest : Guest)
        → EndedSlicesEnd m config guest }
    ensures waiting { (m : Module) (config : Settings) (guest : Guest)
        → WaitingSlicesEnd m config guest }
    ensures failed { (m : Module) (config : Settings) (guest : Guest)
        → FailedSlicesEnd m config guest }
    ensures saved { (m : Module) (config : Settings) (guest : Guest)
        → DoneSavesEnd m config guest }
    ensures not_saved { (m : Module) (config : Settings) (guest : Guest)
        → FailedSavesEnd m config guest }
    ensures begins { (m : Module) (config : Settings) (guest : Guest)
        → SlicesBegin m config guest }
    ensures between { (m : Module) (config : Settings) (guest : Guest)
        → CallsLeaveBetween m config guest }
{}

/// The parts of a call, one after another, are one, and its end comes after them.
pub fn parts_of_calls_join()
    ensures joined { PartsJoin }
    ensures foretold { PartsAreForetold }
    ensures ended { EndsJoin }
{}

/// What a recovery tells keeps what was promised, and so does its opening, and that of a fresh
/// worker.
pub fn lives_are_opened()
    ensures told { (m : Module) (config : Settings) (guest : Guest)
        → LinesAreRetold m config guest }
    ensures in_vain { (m : Module) (config : Settings) (guest : Guest)
        → LinesAreRetoldInVain m config guest }
    ensures opens { (m : Module) (config : Settings) (guest : Guest) → LivesOpen m config guest }
    ensures fresh { (m : Module) (config : Settings) (guest : Guest)
        → FreshHoldsNothing m config guest }
    ensures begins { (m : Module) (config : Settings) (guest : Guest)
        → FreshLivesBegin m config guest }
{}
