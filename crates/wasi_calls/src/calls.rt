//! A call of the guest.
//!
//! **A call is written as its rule is: one line of code for one line of the rule.** Each helper
//! says which word of the rule it gives (`GivesValue`), so that most calls are proved with no proof
//! file.

ghost use Rattle.std.specs.Prelude.{◌≡◌, ◌≢◌, ◌+◌, ◌≤◌, length, Option, Ok, Err, option_copied};
ghost use Rattle.wasi_abi.specs.declared.answer.Answer.{Answer};
ghost use Rattle.wasi_abi.specs.rules.Calls.{parameters_of};
ghost use Rattle.wasi_calls_rules.specs.WasiStates.{WasiState as TheWasiState};
ghost use Rattle.wasi_calls_rules.specs.Checks.{Done, Halt};
ghost use Rattle.wasi_calls_rules.specs.Lines.{lines_ended};
ghost use Rattle.wasi_calls_rules.specs.CallRules.{call_rule, TellsCallRule};
ghost use Rattle.wasi_calls_rules.specs.declared.limits.TheConstants.{MOVED_BYTES};
ghost use Rattle.wasi_abi.specs.declared.call.Call.TheVariants.{ProcExit};
ghost use Rattle.wasi_calls.specs.rules.Held.{ShowsWasiState};
ghost use Rattle.wasi_calls.specs.rules.Calls.{AreArguments, ending_of_call, ShowsCallRule};
ghost use Rattle.wasi_calls.specs.rules.Calls.{EndsNothing, IsAsLarge};
ghost use Rattle.wasi_calls.specs.Calls.{call_outcome, check_outcome};
ghost use Rattle.wasi_calls.specs.declared.outcome.CallOutcome.TheVariants.{Memory as WantOfMemory};

use crate::arguments::{
    of_list, of_move, of_open, of_path_filestat, of_placed_move, of_rename, of_seek, of_time, one,
    one_and_long, three, two,
};
use crate::host::WasiState;
use crate::outcome::CallOutcome;
use crate::paths::entries;
use crate::stop::CallStop;
use crate::{
    changes, clocks, listing, offsets, opening, random, read, renaming, status, texts, write,
};
use guest_memory::Memory;
use std::alloc::Global;
use wasi_abi::{Answer, Call, Errno, Rights};

/// Performs a call, with its arguments in order and, where it asked for one, an answer from
/// outside. What it tells is what the rules say; all but a call that is done leave memory and host
/// as they were. It may say that there is no memory for it where an allocation was refused, or
/// where no number is left for a new node. A call that is refused, asks for an answer or ends the
/// process takes none.
pub fn call(
    alloc: Global,
    host: &mut WasiState,
    memory: &mut Memory,
    call: Call,
    arguments: &[u64],
    answer: Option<&Answer>,
) -> CallOutcome
    requires typed { AreArguments (parameters_of call) arguments.now }
    ensures told { TellsCallRule (ending_of_call result) memory.new.bytes host.new.host
        memory.old.bytes host.old.host
        (call_rule call arguments.now (option_copied answer.entry) memory.old.bytes host.old.host) }
    ensures released { host.new.released ≡ host.old.released }
    ensures shown { (h : TheWasiState) → ShowsWasiState host.old h
        → ShowsCallRule (ending_of_call result) memory.new.bytes host.new memory.old.bytes host.old
        (call_rule call arguments.now (option_copied answer.entry) memory.old.bytes h) }
    ensures wants { result ≡ WantOfMemory → EndsNothing call arguments.now }
    ensures large { IsAsLarge memory.old memory.new }
{
    perform(alloc, host, memory, call, arguments, answer)
}

/// Performs it, on the host that has the lines that wait alone.
fn perform(
    alloc: Global,
    host: &mut WasiState,
    memory: &mut Memory,
    call: Call,
    arguments: &[u64],
    answer: Option<&Answer>,
) -> CallOutcome
    requires typed { AreArguments (parameters_of call) arguments.now }
    ensures told { TellsCallRule (ending_of_call result) memory.new.bytes host.new.host
        memory.old.bytes host.old.host
        (call_rule call arguments.now (option_copied answer.entry) memory.old.bytes host.old.host) }
    ensures released { host.new.released ≡ host.old.released }
    ensures wants { result ≡ WantOfMemory → call ≢ ProcExit }
    ensures large { IsAsLarge memory.old memory.new }
{
    match call {
        Call::ArgsGet => {
            let (array, buffer) = two(arguments);
            check_outcome(texts::get(host.arguments(), memory, array, buffer))
        }
        Call::ArgsSizesGet => {
            let (count, size) = two(arguments);
            check_outcome(texts::get_sizes(host.arguments(), memory, count, size))
        }
        Call::EnvironGet => {
            let (array, buffer) = two(arguments);
            check_outcome(texts::get(host.environment(), memory, array, buffer))
        }
        Call::EnvironSizesGet => {
            let (count, size) = two(arguments);
            check_outcome(texts::get_sizes(host.environment(), memory, count, size))
        }
        Call::ClockResGet => {
            let (clock, ret) = two(arguments);
            check_outcome(clocks::get_resolution(memory, clock, ret))
        }
        Call::ClockTimeGet => call_outcome(clocks::get_time(
            host,
            memory,
            of_time(arguments),
            answer,
        )),
        Call::FdClose => check_outcome(changes::close(host, one(arguments))),
        Call::FdDatasync => check_outcome(changes::sync(host, one(arguments), Rights::FD_DATASYNC)),
        Call::FdFilestatSetSize => {
            let (fd, size) = one_and_long(arguments);
            call_outcome(changes::set_size(host, fd, size))
        }
        Call::FdPread => check_outcome(read::read_at(host, memory, of_placed_move(arguments))),
        Call::FdPwrite => call_outcome(write::write_at(host, memory, of_placed_move(arguments))),
        Call::FdRead => call_outcome(read::read(host, memory, of_move(arguments), answer)),
        Call::FdReaddir => check_outcome(listing::list(host, memory, of_list(arguments))),
        Call::FdSeek => check_outcome(offsets::seek(host, memory, of_seek(arguments))),
        Call::FdSync => check_outcome(changes::sync(host, one(arguments), Rights::FD_SYNC)),
        Call::FdWrite => call_outcome(write::write(alloc, host, memory, of_move(arguments))),
        Call::PathCreateDirectory => {
            let (fd, path, len) = three(arguments);
            call_outcome(entries::create_directory(alloc, host, memory, fd, path, len))
        }
        Call::PathFilestatGet => {
            check_outcome(entries::get_path_filestat(host, memory, of_path_filestat(arguments)))
        }
        Call::PathOpen => call_outcome(opening::open(alloc, host, memory, of_open(arguments))),
        Call::PathRemoveDirectory => {
            let (fd, path, len) = three(arguments);
            check_outcome(entries::remove_directory(host, memory, fd, path, len))
        }
        Call::PathRename => call_outcome(renaming::rename(
            alloc,
            host,
            memory,
            of_rename(arguments),
        )),
        Call::PathUnlinkFile => {
            let (fd, path, len) = three(arguments);
            check_outcome(entries::unlink_file(host, memory, fd, path, len))
        }
        Call::ProcExit => CallOutcome::Exit(one(arguments)),
        Call::SchedYield => CallOutcome::Done,
        Call::FdFdstatGet => {
            let (fd, ret) = two(arguments);
            check_outcome(status::get_fdstat(host, memory, fd, ret))
        }
        Call::FdFdstatSetFlags => {
            let (fd, flags) = two(arguments);
            check_outcome(status::set_flags(host, fd, flags))
        }
        Call::FdFilestatGet => {
            let (fd, ret) = two(arguments);
            check_outcome(status::get_filestat(host, memory, fd, ret))
        }
        Call::FdPrestatGet => {
            let (fd, ret) = two(arguments);
            check_outcome(status::get_prestat(host, memory, fd, ret))
        }
        Call::FdPrestatDirName => {
            let (fd, path, len) = three(arguments);
            check_outcome(status::get_prestat_name(host, memory, fd, path, len))
        }
        Call::FdTell => {
            let (fd, ret) = two(arguments);
            check_outcome(offsets::tell(host, memory, fd, ret))
        }
        Call::RandomGet => {
            let (buffer, len) = two(arguments);
            call_outcome(random::get(host, memory, buffer, len, answer))
        }
    }
}

/// How many lines such a call would add, an unfinished one counted as a line: none, if it is not
/// done. It changes nothing, and takes no memory.
pub fn lines_begun(host: &WasiState, memory: &Memory, call: Call, arguments: &[u64]) -> usize
    requires typed { AreArguments (parameters_of call) arguments.now }
    ensures count { (given : Option Answer) (h : TheWasiState) (done : Done)
        → ShowsWasiState host.now h → call_rule call arguments.now given
        memory.now.bytes h ≡ Ok done → length (lines_ended done.host).lines
        ≡ length (lines_ended h).lines + result }
    ensures none { (given : Option Answer) (h : TheWasiState) (halt : Halt)
        → ShowsWasiState host.now h → call_rule call arguments.now given memory.now.bytes h
        ≡ Err halt → result ≡ 0 }
    ensures few { result ≤ MOVED_BYTES }
{
    match call {
        Call::FdWrite => write::lines_begun(host, memory, of_move(arguments)),
        _ => 0,
    }
}

/// How a call ends that takes no memory.
fn check_outcome(ended: Result<(), Errno>) -> CallOutcome
    ensures { result ≡ check_outcome ended }
{
    match ended {
        Ok(()) => CallOutcome::Done,
        Err(error) => CallOutcome::Refused(error),
    }
}

/// How a call ends that may want memory or an answer.
fn call_outcome(ended: Result<(), CallStop>) -> CallOutcome
    ensures { result ≡ call_outcome ended }
{
    match ended {
        Ok(()) => CallOutcome::Done,
        Err(CallStop::Refused(error)) => CallOutcome::Refused(error),
        Err(CallStop::Asks(question)) => CallOutcome::Ask(question),
        Err(CallStop::Memory) => CallOutcome::Memory,
    }
}
