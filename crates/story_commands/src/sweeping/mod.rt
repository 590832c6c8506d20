//! `wasmhost sweep`: the lives of a script, with the power cut at each call of one of them.

mod calling;
mod choosing;
mod cutting;
mod fault;
mod giving;
mod judging;
mod planning;
mod reading;
mod running;
mod spelling;
mod starving;
mod taking;
mod telling;
mod texts;
mod upgrading;
mod whole_sweep;

pub use choosing::fronts_of;
pub use reading::{SweepScriptFault, SweptLives, read_sweep, report_sweep_script};
pub use telling::{SweepChoice, tell_sweep};
