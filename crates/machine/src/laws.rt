//! Laws over what machines show. The functions do nothing: what they ensure is the law.

ghost use Rattle.machine.specs.laws.Alike.{MachinesAnswerAlike, MachinesRunAlike, OneMachineShows};
ghost use Rattle.machine.specs.laws.Laws.{AsksTheSame, MachineShowsOne, ShowsWhatIsWritten};
ghost use Rattle.machine.specs.laws.Laws.{WaitsForTheCall};
ghost use Rattle.machine.specs.laws.Routines.{FunctionsAreNumbered, FunctionsAreCounted};
ghost use Rattle.wasm_rules.specs.laws.Soundness.{OffersNoEntry};
ghost use Rattle.machine.specs.rules.Offers.{offer};

/// While a call of the host waits, the bytes of memory may be written: the machine then waits at
/// the same call.
pub fn memory_may_be_written()
    ensures shows { ShowsWhatIsWritten }
    ensures asks { AsksTheSame }
    ensures waits { WaitsForTheCall }
{}

/// A machine shows one configuration at most, of one program: its bytes, globals, positions and
/// slots say all of it.
pub fn shows_one()
    ensures { MachineShowsOne }
{}

/// Two machines of one module that show one configuration have one value, with the positions of
/// their frames. On the same fuel they pause for the same reason. After that, and after the same
/// answer of the host, they have one value again.
pub fn run_alike()
    ensures shown { OneMachineShows }
    ensures run { MachinesRunAlike }
    ensures answered { MachinesAnswerAlike }
{}

// Laws over all programs. The functions do nothing: what they ensure is the law.

/// Which numbers the host's functions have, and which the module's own.
pub fn functions_are_numbered()
    ensures numbered { FunctionsAreNumbered }
    ensures counted { FunctionsAreCounted }
{}

// What is proved of the definitions alone.

/// The host offers no function without parameters and results, so that no call can be an entry.
pub fn no_call_is_an_entry()
    ensures { OffersNoEntry offer }
{}
