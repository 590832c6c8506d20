//! Where a worker on a disk is, in Prometheus' text format.
//!
//! # Promises
//!
//! - `print_metrics`: the metrics of a worker that was seen so, to the byte (`metrics_text`).
//!   `spell_label`: the label that tells workers of one machine apart is the path of the disk.
//!
//! # Choices
//!
//! - **Each state has a sample, which is 1 or 0.** A rule can ask for one that isn't there yet.

ghost use Rattle.std.specs.Prelude.{◌≡◌, ◌*◌, ◌↔◌, ◌++◌, true, IfOk, IsTrue, OnErr, OnOk};
ghost use Rattle.command_words.specs.rules.Printers.{IsPrinted};
ghost use Rattle.disk_commands.specs.rules.Metrics.{BeginsAsMetrics, comment, disk_label};
ghost use Rattle.disk_commands.specs.rules.Metrics.{escaped_byte, exit_code, exit_metric, flag};
ghost use Rattle.disk_commands.specs.rules.Metrics.{left_metric, metric, metric_sample};
ghost use Rattle.disk_commands.specs.rules.Metrics.{metrics_text, numbers_text, state_place};
ghost use Rattle.disk_commands.specs.rules.Metrics.{state_text};

use crate::on_disk::sighting::{Sighting, WatchedState};
use crate::on_disk::status_line::behind;
use command_words::Printer;
use process::ProcessEnd;
use std::alloc::{AllocError, Global};
use std::io::{self, Write};
use worker::Position;

/// Bytes of a sector of the journal.
const SECTOR: u128 = 512;

/// Whether these are the first bytes of a file with metrics.
pub(super) fn is_metrics(bytes: &[u8]) -> bool
    ensures { IsTrue result ↔ BeginsAsMetrics bytes.now }
{
    let head = b"# HELP wasmhost_generation Number of the worker's newest snapshot.\n";
    match behind(bytes, head) {
        Some(_) => true,
        None => false,
    }
}

/// Adds a byte of a label's value, as it is written.
fn push_escaped(label: &mut Vec<u8>, byte: u8) -> Result<(), AllocError>
    ensures { OnOk result (label.new.items ≡ label.old.items ++ escaped_byte byte) }
{
    if byte == b'\n' {
        return label.extend_from_slice(b"\\n");
    }
    if byte == b'"' {
        return label.extend_from_slice(b"\\\"");
    }
    if byte == b'\\' {
        return label.extend_from_slice(b"\\\\");
    }
    label.push(byte)?;
    Ok(())
}

/// The label of the disk at a path, up to its closing brace.
pub(super) fn spell_label(alloc: Global, path: &str) -> Result<Vec<u8>, AllocError>
    ensures { IfOk result (λ label. label.items ≡ disk_label path.now) }
{
    let mut label = b"{disk=\"".to_vec(alloc)?;
    for byte in path.as_bytes() {
        push_escaped(&mut label, *byte)?;
    }
    label.push(b'"')?;
    Ok(label)
}

/// Writes what a metric is, and of which kind.
fn print_comment<W: Write + Drop>(
    out: &mut Printer<W>,
    name: &str,
    help: &str,
    kind: &str,
) -> io::Result<()>
    ensures printed { OnOk result (IsPrinted out.old out.new
        (comment name.now help.now kind.now)) }
    ensures failed { OnErr result (out.new.failed ≡ true) }
{
    writeln!(out, "# HELP {name} {help}\n# TYPE {name} {kind}")
}

/// Writes a sample of a metric.
fn print_sample<W: Write + Drop>(
    out: &mut Printer<W>,
    name: &str,
    label: &[u8],
    close: &str,
    number: u128,
) -> io::Result<()>
    ensures printed { OnOk result (IsPrinted out.old out.new
        (metric_sample name.now label.now close.now number)) }
    ensures failed { OnErr result (out.new.failed ≡ true) }
{
    write!(out, "{name}")?;
    out.write_all(label)?;
    writeln!(out, "{close}{number}")
}

/// Writes a metric with one sample.
fn print_metric<W: Write + Drop>(
    out: &mut Printer<W>,
    name: &str,
    help: &str,
    kind: &str,
    label: &[u8],
    number: u64,
) -> io::Result<()>
    ensures printed { OnOk result (IsPrinted out.old out.new
        (metric name.now help.now kind.now label.now number)) }
    ensures failed { OnErr result (out.new.failed ≡ true) }
{
    print_comment(out, name, help, kind)?;
    print_sample(out, name, label, "} ", u128::from(number))
}

/// How many bytes so many sectors of the journal have.
fn bytes_of(sectors: u64) -> u128
    ensures { result ≡ 512 * sectors }
{
    SECTOR * u128::from(sectors)
}

/// Writes the metric of the sectors that are left of the journal.
fn print_left_bytes<W: Write + Drop>(
    out: &mut Printer<W>,
    label: &[u8],
    sectors: u64,
) -> io::Result<()>
    ensures printed { OnOk result (IsPrinted out.old out.new (left_metric label.now sectors)) }
    ensures failed { OnErr result (out.new.failed ≡ true) }
{
    let name = "wasmhost_journal_left_bytes";
    print_comment(out, name, "Bytes of its journal that are left.", "gauge")?;
    print_sample(out, name, label, "} ", bytes_of(sectors))
}

/// Writes the metrics of a worker's numbers.
fn print_numbers<W: Write + Drop>(
    out: &mut Printer<W>,
    label: &[u8],
    position: &Position,
) -> io::Result<()>
    ensures printed { OnOk result (IsPrinted out.old out.new
        (numbers_text label.now position.now)) }
    ensures failed { OnErr result (out.new.failed ≡ true) }
{
    let snapshot = "Number of the worker's newest snapshot.";
    let steps = "Steps that the worker has taken.";
    let answers = "Answers that it has taken, requests too.";
    let requests = "Requests that it has taken.";
    let lines = "Lines that it has written.";
    print_metric(
        out,
        "wasmhost_generation",
        snapshot,
        "gauge",
        label,
        position.generation,
    )?;
    print_metric(
        out,
        "wasmhost_steps_total",
        steps,
        "counter",
        label,
        position.steps,
    )?;
    print_metric(
        out,
        "wasmhost_answers_total",
        answers,
        "counter",
        label,
        position.answers,
    )?;
    print_metric(
        out,
        "wasmhost_requests_total",
        requests,
        "counter",
        label,
        position.requests,
    )?;
    print_metric(
        out,
        "wasmhost_lines_total",
        lines,
        "counter",
        label,
        position.lines,
    )?;
    print_left_bytes(out, label, position.journal_left)
}

/// The code of a worker that has exited, and else 0.
fn exit_code(state: WatchedState) -> u64
    ensures { result ≡ exit_code state }
{
    match state {
        WatchedState::Ended(ProcessEnd::Exited(code)) => u64::from(code),
        WatchedState::Ended(ProcessEnd::Trapped(_)) => 0,
        WatchedState::Running | WatchedState::Waiting | WatchedState::Parked => 0,
    }
}

/// Writes the metric of a worker's exit code.
fn print_exit_code<W: Write + Drop>(
    out: &mut Printer<W>,
    label: &[u8],
    state: WatchedState,
) -> io::Result<()>
    ensures printed { OnOk result (IsPrinted out.old out.new (exit_metric label.now state)) }
    ensures failed { OnErr result (out.new.failed ≡ true) }
{
    let help = "Code that it has exited with, or 0.";
    print_metric(
        out,
        "wasmhost_exit_code",
        help,
        "gauge",
        label,
        exit_code(state),
    )
}

/// The place of a state among the samples.
fn state_place(state: WatchedState) -> u8
    ensures { result ≡ state_place state }
{
    match state {
        WatchedState::Running => 0,
        WatchedState::Waiting => 1,
        WatchedState::Parked => 2,
        WatchedState::Ended(ProcessEnd::Exited(_)) => 3,
        WatchedState::Ended(ProcessEnd::Trapped(_)) => 4,
    }
}

/// Writes the sample of the state at a place: 1 where it is the worker's, and else 0.
fn print_flag<W: Write + Drop>(
    out: &mut Printer<W>,
    label: &[u8],
    close: &str,
    state: WatchedState,
    place: u8,
) -> io::Result<()>
    ensures printed { OnOk result (IsPrinted out.old out.new
        (flag label.now close.now state place)) }
    ensures failed { OnErr result (out.new.failed ≡ true) }
{
    if state_place(state) == place {
        return print_sample(out, "wasmhost_state", label, close, 1);
    }
    print_sample(out, "wasmhost_state", label, close, 0)
}

/// Writes the metrics of what a worker is.
fn print_state<W: Write + Drop>(
    out: &mut Printer<W>,
    label: &[u8],
    state: WatchedState,
) -> io::Result<()>
    ensures printed { OnOk result (IsPrinted out.old out.new (state_text label.now state)) }
    ensures failed { OnErr result (out.new.failed ≡ true) }
{
    print_exit_code(out, label, state)?;
    print_comment(
        out,
        "wasmhost_state",
        "Whether the worker is in this state.",
        "gauge",
    )?;
    print_flag(out, label, ",state=\"running\"} ", state, 0)?;
    print_flag(out, label, ",state=\"waiting\"} ", state, 1)?;
    print_flag(out, label, ",state=\"parked\"} ", state, 2)?;
    print_flag(out, label, ",state=\"exited\"} ", state, 3)?;
    print_flag(out, label, ",state=\"trapped\"} ", state, 4)
}

/// Writes the metrics of a worker that was seen so, with the label of its disk.
pub(super) fn print_metrics<W: Write + Drop>(
    out: &mut Printer<W>,
    label: &[u8],
    seen: &Sighting,
) -> io::Result<()>
    ensures printed { OnOk result (IsPrinted out.old out.new
        (metrics_text label.now seen.now)) }
    ensures failed { OnErr result (out.new.failed ≡ true) }
{
    print_numbers(out, label, &seen.position)?;
    print_state(out, label, seen.state)
}
