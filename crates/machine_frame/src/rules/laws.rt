//! Laws over all programs, bodies and frames. The functions do nothing: what they ensure is the
//! law.

ghost use Rattle.machine_frame.specs.laws.Walks.{WalksAreSteps, WalksReduce, WalksCompose};
ghost use Rattle.machine_frame.specs.laws.Walks.{WalksAreTyped};
ghost use Rattle.machine_frame.specs.laws.FramePosition.{OpcodesRemain, IsTypedSomewhere};
ghost use Rattle.machine_frame.specs.laws.FramePosition.{LabelsEnd, OperandsAreFew, EntryIsTyped};
ghost use Rattle.machine_frame.specs.laws.FramePosition.{EffectsLeadOn, BlocksLeadIn, LoopsLeadIn};
ghost use Rattle.machine_frame.specs.laws.FramePosition.{IfsLeadIn, ChoicesLeadIn, BranchesLead};
ghost use Rattle.machine_frame.specs.laws.FramePosition.{ConditionsLead, TablesLead, EndsLeadOut};
ghost use Rattle.machine_frame.specs.laws.FramePosition.{PartsLeadOut};
ghost use Rattle.machine_frame.specs.laws.Fitting.{ShownFits, FitsIsShown};
ghost use Rattle.machine_frame.specs.laws.Threads.{ReducedIsShown, ShownStands, FramesRun};
ghost use Rattle.machine_frame.specs.laws.Threads.{RunsStand, CallsLead, IndirectCallsLead};
ghost use Rattle.machine_frame.specs.laws.Threads.{ReturnsLead, BodiesEnd, HostCalls, AnswersLead};

/// Walks, and the steps that they are.
pub fn walks_are_steps()
    ensures steps { WalksAreSteps }
    ensures reduce { WalksReduce }
    ensures compose { WalksCompose }
    ensures typed { WalksAreTyped }
{}

/// What is where a frame does, and how many labels and values it has there.
pub fn frames_are_at_opcodes()
    ensures opcodes { OpcodesRemain }
    ensures somewhere { IsTypedSomewhere }
    ensures labels { LabelsEnd }
    ensures few { OperandsAreFew }
    ensures entry { EntryIsTyped }
{}

/// An opcode that stays in its sequence, or begins one, leads to the next position, or where
/// the table says.
pub fn frames_lead_on()
    ensures effects { EffectsLeadOn }
    ensures blocks { BlocksLeadIn }
    ensures loops { LoopsLeadIn }
    ensures ifs { IfsLeadIn }
    ensures choices { ChoicesLeadIn }
{}

/// A branch leads where the table says.
pub fn branches_lead()
    ensures branches { BranchesLead }
    ensures conditions { ConditionsLead }
    ensures tables { TablesLead }
{}

/// An end leads out of its sequence.
pub fn ends_lead_out()
    ensures ends { EndsLeadOut }
    ensures parts { PartsLeadOut }
{}

// Laws over all typed programs. The functions do nothing: what they ensure is the law.

/// What a machine's frames and words show.
pub fn machines_show()
    ensures reduced { ReducedIsShown }
    ensures shown { ShownStands }
{}

/// What fits a program shows some configuration of it, and nothing else shows one.
pub fn fitting_is_showing()
    ensures fits { ShownFits }
    ensures shown { FitsIsShown }
{}

/// The running frame apart, and the whole after it has run.
pub fn frames_run()
    ensures apart { FramesRun }
    ensures whole { RunsStand }
{}

/// What a call leads to.
pub fn calls_lead()
    ensures direct { CallsLead }
    ensures indirect { IndirectCallsLead }
{}

/// What a return and the end of a body lead to.
pub fn returns_lead()
    ensures returns { ReturnsLead }
    ensures ends { BodiesEnd }
{}

/// What the host's calls and its answers lead to.
pub fn hosts_lead()
    ensures calls { HostCalls }
    ensures answers { AnswersLead }
{}
