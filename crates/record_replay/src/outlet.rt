//! Where lines go.
//!
//! A release that was answered by a fault is in a list of calls like any other: the line may have
//! been told.

use crate::OutletFault;
use wasi_calls_rules::OutputStream;

/// Whoever takes the lines that a process emits. What a contract says of an outlet it says by one
/// relation of each call, `takes`; lists of calls are folded with it.
pub trait Outlet {
    ghost use Rattle.wasi_calls_rules.specs.WasiStates.{Line};
    ghost use Rattle.record_replay.specs.declared.fault.OutletFault.{OutletFault};
    ghost use Rattle.std.specs.Prelude.{ℕ, Result};

    // The outlet before, the line and its number, what it said, and the outlet after.
    ghost takes: { Self → ℕ → Line → Result (Unit {0}) OutletFault → Self → Type 0 };

    /// Takes a line without its newline: its number, from 1 on, and the stream that it was written
    /// to. After an error it may have been taken or not.
    fn release(&mut self, number: u64, stream: OutputStream, text: &[u8]) -> Result<(), OutletFault>
        ensures { takes self.old number (record {
          stream = stream;
          text = text.now;
        }) result self.new };
}
