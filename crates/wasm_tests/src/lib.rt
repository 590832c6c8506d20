//! What tests alone can show of modules: what bytes decode, validate and link to, and where their
//! branches lead. Also what modules do when they run, a row an instruction, and that bodies are
//! translated.
//!
//! Each test is a table of rows whose expected values come from outside. Those that take memory
//! return their error, so that `scripts/runs/refused-allocations` refuses each allocation in turn.
#![tactic(auto)]

#[cfg(test)]
mod branches;
#[cfg(test)]
mod containers;
#[cfg(test)]
mod decoding;
#[cfg(test)]
mod faults;
#[cfg(test)]
mod machines;
#[cfg(test)]
mod memories;
#[cfg(test)]
mod opcodes;
#[cfg(test)]
mod operators;
#[cfg(test)]
mod rows;
#[cfg(test)]
mod runs;
#[cfg(test)]
mod spelled;
#[cfg(test)]
mod translations;
#[cfg(test)]
mod validation;
