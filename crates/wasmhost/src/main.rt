//! The program `wasmhost`: its words, files and streams around the commands of `command_words`,
//! `disk_commands` and `story_commands` (this project's own).
//!
//! # Promises
//!
//! - An exit status is one of the eight of `Status`, by its type. `main` turns it into its number.
//!   No clause says more of the program.
//!
//! What the commands promise of bytes, disks, readers and writers is said in these crates. The
//! program brings these to them:
//!
//! - The command line is read, and the modules and scripts that it names are opened. What the words
//!   say of a creation, a run or an upgrade is handed on whole.
//! - `check` and `create` hand over a module's bytes. The rest of `create` is `create_disk`.
//! - `story` and `sweep` hand over all bytes of a script, and then a module's bytes, read in this
//!   order. A script of more than 256 MiB is told as a file that is too large.
//! - `run` and `upgrade` are `run_file` and `upgrade_file`, and `show`, `inspect`, `files` and
//!   `history` are `look_at_file`, which open the disk's file. `save` is `save_file`, which makes
//!   one, too, and `files --all` is `extract_file`, which makes a folder. One host holds the disk
//!   at a time, and with `--live` others only look at it. `run` also hands over the lines of the
//!   standard input and the machine's clock. With `--whole-lines` these are whole lines
//!   (`WholeLines`), and last it is said if a rest was left.
//! - Before all that the numbers of standard streams that are closed are taken (`StreamNumbers`),
//!   so that no file gets one. No clause says so: `scripts/runs/closed-streams` shows it.
//! - A file that can't be read is told by `report_unread`, want of memory by `report`, and a fault
//!   of the words by `report_words`. An output that can't be written is told by `report_output`,
//!   but for `create`, `run`, `upgrade`, `save` and `files --all`, which tell it themselves.
//! - Each command is handed fresh printers, of which no write has failed. The error output's
//!   printer is told whether it is a terminal.
//!
//! # Definitions to read
//!
//! None. There is no `specs/` folder.
//!
//! # Who may touch what
//!
//! Of the crates here only this one has the runtime's handle: the words of the command line, files,
//! standard streams, the clock and the allocator. All else is lent to the commands. A disk in a
//! file is `sector_disk`'s. Memory is taken for the words, the file, the reader's buffer and a
//! line.
#![tactic(auto)]

use command_words::{
    BufferedLines, CheckOrder, CreateOrder, FilesOrder, LineOutlet, Obstacle, Order, Printer,
    RunOrder, Sizes, Status, StoryOrder, SweepOrder, WholeLines, WordsFault, check_module,
    read_module, read_words, report, report_output, report_words, say_line,
};
use disk_commands::{
    CountedLines, Look, Seen, System, create_disk, extract_file, look_at_file, report_unread,
    run_file, save_file, upgrade_file,
};
use std::alloc::Global;
use std::env::{self, FillError};
use std::fs::File;
use std::io::{self, BufReader, Error, ErrorKind, Input, IsTerminal, Read, Write};
use std::process::ExitCode;
use std::rt::{Env, Files};
use std::time::Clock;
use story_commands::{
    SweepChoice, fronts_of, read_script, read_sweep, report_script, report_sweep_script, tell,
    tell_sweep,
};

/// It is read to keep a number from other files. It has no bytes, and takes none from a reader.
const NULL_DEVICE: &str = "/dev/null";

/// The most bytes that a script may have: 256 MiB. The history of a full journal has fewer.
const MOST_SCRIPT_BYTES: u64 = 268_435_456;

/// How many bytes of its input a run reads ahead.
const AHEAD: usize = 8_192;

/// The same for batches: so some 3,000 short request lines may be at hand.
const AHEAD_OF_BATCHES: usize = 65_536;

/// The numbers of those standard streams that were closed when the program began. As long as it
/// lives no file gets one of them: a closed input is at its end, and a write to a closed output
/// fails.
#[derive(Drop)]
struct StreamNumbers {
    _files: [File; 3],
}

impl StreamNumbers {
    /// Opens the null device three times. The system gives a file the lowest number that is free.
    fn take<R: Files<File = File>>(rt: &R) -> io::Result<StreamNumbers> {
        let first = File::open(rt, NULL_DEVICE)?;
        let second = File::open(rt, NULL_DEVICE)?;
        let third = File::open(rt, NULL_DEVICE)?;
        Ok(StreamNumbers {
            _files: [first, second, third],
        })
    }
}

/// The arguments of the command line up to the first one that isn't UTF-8.
#[derive(Drop)]
struct TextArguments<'a, R> {
    rt: &'a R,
}

impl<R: Env> Env for TextArguments<'_, R> {
    fn arg(&self, i: usize, buf: &mut [u8]) -> Result<usize, FillError> {
        let len = self.rt.arg(i, buf)?;
        if str::from_utf8(&buf[..len]).is_ok() {
            Ok(len)
        } else {
            Err(FillError::NotPresent)
        }
    }

    fn var(&self, name: &str, buf: &mut [u8]) -> Result<usize, FillError> {
        self.rt.var(name, buf)
    }

    fn var_at(&self, i: usize, buf: &mut [u8]) -> Result<usize, FillError> {
        self.rt.var_at(i, buf)
    }
}

/// Tells which argument is the first one that isn't UTF-8.
fn report_argument<R: Env, E: Write + Drop>(rt: &R, alloc: Global, err: &mut Printer<E>) -> Status {
    let texts = TextArguments { rt };
    match env::args(&(&texts, alloc)) {
        Ok(before) => report(err, Obstacle::NoText(before.len())),
        Err(_) => report(err, Obstacle::Memory),
    }
}

/// The first bytes of a file.
fn read_file<R: Files>(rt: &R, alloc: Global, path: &str) -> io::Result<Vec<u8>> {
    read_module(alloc, File::open(rt, path)?)
}

/// All bytes of a script. A longer one than a script may be is an error, so that no device is read
/// for ever.
fn read_script_file<R: Files>(rt: &R, alloc: Global, path: &str) -> io::Result<Vec<u8>> {
    let mut bytes = Vec::new(alloc);
    File::open(rt, path)?
        .take(MOST_SCRIPT_BYTES + 1)
        .read_to_end(&mut bytes)?;
    if bytes.len() as u64 > MOST_SCRIPT_BYTES {
        return Err(Error::from(ErrorKind::FileTooLarge));
    }
    Ok(bytes)
}

fn check<R: Files, W: Write + Drop, E: Write + Drop>(
    rt: &R,
    alloc: Global,
    order: &CheckOrder<'_>,
    out: &mut W,
    err: &mut Printer<E>,
) -> Status {
    match read_file(rt, alloc, order.path) {
        Ok(wasm) => {
            let wasm = wasm.as_slice();
            let out = &mut Printer::new(out, false);
            let status = check_module(alloc, wasm, order.pages, order.lists_all, out, err);
            report_output(out, status, err)
        }
        Err(error) => report_unread(err, order.path, error),
    }
}

/// Creates a worker of the module in a file, as the words say.
fn create<R: Files<File = File>, W: Write + Drop, E: Write + Drop>(
    rt: &R,
    alloc: Global,
    order: &CreateOrder<'_>,
    out: &mut W,
    err: &mut Printer<E>,
) -> Status {
    match read_file(rt, alloc, order.module) {
        Ok(wasm) => {
            let out = &mut Printer::new(out, false);
            create_disk(alloc, rt, order, wasm.as_slice(), out, err)
        }
        Err(error) => report_unread(err, order.module, error),
    }
}

/// Says what is asked for of the disk in a file, or of a picture of it.
fn look_at_disk<R: Files<File = File>, W: Write + Drop, E: Write + Drop>(
    rt: &R,
    alloc: Global,
    seen: Seen<'_>,
    look: Look<'_>,
    out: &mut W,
    err: &mut Printer<E>,
) -> Status {
    let out = &mut Printer::new(out, false);
    let status = look_at_file(alloc, rt, seen, look, out, err);
    report_output(out, status, err)
}

/// Says what is asked for of the files of the worker of a disk.
fn look_at_files<R: Files<File = File>, W: Write + Drop, E: Write + Drop>(
    rt: &R,
    alloc: Global,
    seen: Seen<'_>,
    asked: FilesOrder<'_>,
    out: &mut W,
    err: &mut Printer<E>,
) -> Status {
    let path = match asked {
        FilesOrder::List => None,
        FilesOrder::File(path) => Some(path),
        FilesOrder::Tree(folder) => {
            let out = &mut Printer::new(out, false);
            return extract_file(alloc, rt, seen, folder, out, err);
        }
    };
    look_at_disk(rt, alloc, seen, Look::Files { path }, out, err)
}

/// How many bytes of its input a run reads ahead, of whose lines one sync may serve so many.
fn ahead_for(batch: u64) -> usize {
    if batch > 1 { AHEAD_OF_BATCHES } else { AHEAD }
}

/// Tells after a run that the last line was left, if it was. Answers the exit status.
fn tell_left<R: Read + Drop, E: Write + Drop>(
    input: &WholeLines<R>,
    status: Status,
    err: &mut Printer<E>,
) -> Status {
    if input.has_left() {
        say_line(err, status, "the last line has no newline, and was left")
    } else {
        status
    }
}

/// Runs the worker of a disk on the lines of the standard input and the machine's clock.
fn run<R: Files<File = File> + Input + Clock, W: Write + Drop, E: Write + Drop>(
    rt: &R,
    alloc: Global,
    order: &RunOrder<'_>,
    out: &mut W,
    err: &mut Printer<E>,
) -> Status {
    let Ok(mut outlet) = LineOutlet::new(alloc, out) else {
        return report(err, Obstacle::Memory);
    };
    let ahead = ahead_for(order.batch.get());
    let mut input = WholeLines::new(alloc, rt.reader(), order.whole_lines);
    let Ok(reader) = BufReader::with_capacity(alloc, ahead, &mut input) else {
        return report(err, Obstacle::Memory);
    };
    let system = System {
        files: rt,
        lines: BufferedLines::new(reader),
        clock: rt,
    };
    let status = run_file(alloc, system, order, &mut outlet, err);
    tell_left(&input, status, err)
}

/// Brings the worker of a disk to version 2, and says so after its lines, and how many these were.
fn upgrade<R: Files<File = File>, W: Write + Drop, E: Write + Drop>(
    rt: &R,
    alloc: Global,
    path: &str,
    out: &mut W,
    err: &mut Printer<E>,
) -> Status {
    let Ok(outlet) = LineOutlet::new(alloc, out) else {
        return report(err, Obstacle::Memory);
    };
    let mut lines = CountedLines::new(outlet);
    upgrade_file(alloc, rt, path, &mut lines, err)
}

/// Tells that the module of a story can't be read, but first what is wrong with the script.
fn report_module<E: Write + Drop>(
    alloc: Global,
    script: &[u8],
    path: &str,
    error: io::Error,
    err: &mut Printer<E>,
) -> Status {
    match read_script(alloc, script) {
        Ok(_) => report_unread(err, path, error),
        Err(fault) => report_script(err, fault),
    }
}

/// Tells the lives of a worker on a disk in memory, as a script says.
fn story<R: Files, W: Write + Drop, E: Write + Drop>(
    rt: &R,
    alloc: Global,
    order: &StoryOrder<'_>,
    out: &mut W,
    err: &mut Printer<E>,
) -> Status {
    let script = match read_script_file(rt, alloc, order.script) {
        Ok(script) => script,
        Err(error) => return report_unread(err, order.script, error),
    };
    let wasm = match read_file(rt, alloc, order.module) {
        Ok(wasm) => wasm,
        Err(error) => {
            return report_module(alloc, script.as_slice(), order.module, error, err);
        }
    };
    let sizes = Sizes {
        pages: order.pages,
        files: order.files,
        journal: order.journal,
    };
    let out = &mut Printer::new(out, false);
    let status = tell(alloc, script.as_slice(), wasm.as_slice(), sizes, out, err);
    report_output(out, status, err)
}

/// Tells that the module of a sweep can't be read, but first what is wrong with the script.
fn report_unswept<E: Write + Drop>(
    alloc: Global,
    script: &[u8],
    order: &SweepOrder<'_>,
    error: io::Error,
    err: &mut Printer<E>,
) -> Status {
    match read_sweep(alloc, script, order.life) {
        Ok(_) => report_unread(err, order.module, error),
        Err(fault) => report_sweep_script(err, fault),
    }
}

/// Cuts the power at each call of the disk in one of the lives that a script says.
fn sweep<R: Files, W: Write + Drop, E: Write + Drop>(
    rt: &R,
    alloc: Global,
    order: &SweepOrder<'_>,
    out: &mut W,
    err: &mut Printer<E>,
) -> Status {
    let fronts = match fronts_of(alloc, order.fronts) {
        Ok(fronts) => fronts,
        Err(obstacle) => return report(err, obstacle),
    };
    let script = match read_script_file(rt, alloc, order.script) {
        Ok(script) => script,
        Err(error) => return report_unread(err, order.script, error),
    };
    let wasm = match read_file(rt, alloc, order.module) {
        Ok(wasm) => wasm,
        Err(error) => return report_unswept(alloc, script.as_slice(), order, error, err),
    };
    let choice = SweepChoice {
        sizes: Sizes {
            pages: order.pages,
            files: order.files,
            journal: order.journal,
        },
        fronts: fronts.as_slice(),
        life: order.life,
    };
    let out = &mut Printer::new(out, false);
    let status = tell_sweep(alloc, script.as_slice(), wasm.as_slice(), choice, out, err);
    report_output(out, status, err)
}

/// Prints help or the version, or what is wrong with the words.
fn explain<W: Write + Drop, E: Write + Drop>(
    alloc: Global,
    fault: &WordsFault,
    out: &mut W,
    err: &mut Printer<E>,
) -> Status {
    let out = &mut Printer::new(out, false);
    let status = report_words(alloc, fault, out, err);
    report_output(out, status, err)
}

/// Does what the words ask for. Answers the exit status.
fn obey<R: Clock + Files<File = File> + Input, W: Write + Drop, E: Write + Drop>(
    rt: &R,
    alloc: Global,
    order: Order<'_>,
    out: &mut W,
    err: &mut Printer<E>,
) -> Status {
    match order {
        Order::Check(order) => check(rt, alloc, &order, out, err),
        Order::Create(order) => create(rt, alloc, &order, out, err),
        Order::Run(order) => run(rt, alloc, &order, out, err),
        Order::Show { path, is_live } => {
            look_at_disk(rt, alloc, Seen { path, is_live }, Look::Survey, out, err)
        }
        Order::Inspect {
            path,
            as_json,
            is_live,
        } => {
            let look = Look::Facts { as_json };
            look_at_disk(rt, alloc, Seen { path, is_live }, look, out, err)
        }
        Order::Files {
            disk: path,
            asked,
            is_live,
        } => look_at_files(rt, alloc, Seen { path, is_live }, asked, out, err),
        Order::History {
            path,
            as_story,
            is_live,
        } => {
            let look = Look::History { as_story };
            look_at_disk(rt, alloc, Seen { path, is_live }, look, out, err)
        }
        Order::Upgrade { path } => upgrade(rt, alloc, path, out, err),
        Order::Save {
            disk: path,
            copy,
            is_live,
        } => {
            let out = &mut Printer::new(out, false);
            save_file(alloc, rt, Seen { path, is_live }, copy, out, err)
        }
        Order::Story(order) => story(rt, alloc, &order, out, err),
        Order::Sweep(order) => sweep(rt, alloc, &order, out, err),
    }
}

/// Runs the command line, and answers the exit status.
fn status_of<R, W: Write + Drop, E: Write + Drop>(
    rt: &R,
    out: &mut W,
    err: &mut Printer<E>,
) -> Status
where
    R: AllocGlobal + Clock + Env + Files<File = File> + Input,
{
    let alloc = rt.alloc();
    let words: Vec<String> = match env::args(rt) {
        Ok(words) => match words.collect(alloc) {
            Ok(words) => words,
            Err(_) => return report(err, Obstacle::Memory),
        },
        Err(error) if error.kind() == ErrorKind::OutOfMemory => {
            return report(err, Obstacle::Memory);
        }
        Err(_) => return report_argument(rt, alloc, err),
    };
    match read_words(alloc, words.as_slice()) {
        Ok(order) => obey(rt, alloc, order, out, err),
        Err(fault) => explain(alloc, &fault, out, err),
    }
}

/// Takes the numbers of closed standard streams, and then runs the command line. Returns the exit
/// status.
fn guarded<R, W: Write + Drop, E: Write + Drop>(rt: &R, out: &mut W, err: &mut Printer<E>) -> Status
where
    R: AllocGlobal + Clock + Env + Files<File = File> + Input,
{
    match StreamNumbers::take(rt) {
        Ok(_taken) => status_of(rt, out, err),
        Err(error) => report_unread(err, NULL_DEVICE, error),
    }
}

fn main(rt: HostRuntime) -> ExitCode {
    let err = rt.stderr();
    let is_terminal = err.is_terminal();
    let err = &mut Printer::new(err, is_terminal);
    let status = guarded(&rt, &mut rt.stdout(), err);
    ExitCode::from(status.code())
}
