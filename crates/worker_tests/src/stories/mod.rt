//! Lists of lives. Reports are compared of cuts at each kind of call, of torn writes, and of lives
//! that meet no stop. A sweep stops a life, and lets its disk fail, at each call.
//!
//! Want of memory inside of a life is told in its report. One test alone looks for it there, for
//! `scripts/runs/refused-allocations`.

mod cuts;
mod lives;
mod memory;
mod sweeps;
