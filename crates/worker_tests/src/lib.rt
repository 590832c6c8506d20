//! What tests alone can show of workers on their disks (`workers`), and of what is told of lists of
//! lives (`stories`). `disk_tests` has the layers below.
//!
//! Each test is a table of rows whose expected values come from outside. Those that take memory
//! return their error, so that `scripts/runs/refused-allocations` refuses each allocation in turn.
#![tactic(auto)]

#[cfg(test)]
mod guests;
#[cfg(test)]
mod halt;
#[cfg(test)]
mod rows;
#[cfg(test)]
mod stories;
#[cfg(test)]
mod workers;
