//! What tests alone can show of a worker's disk, layer upon layer. Sectors are cut, stopped and
//! failed. Super and heads are compared with literal bytes. Journals and snapshots are stopped at
//! each call of the disk. Workers on such disks are in `worker_tests`.
//!
//! Each test is a table of rows whose expected values come from outside. Those that take memory
//! return their error, so that `scripts/runs/refused-allocations` refuses each allocation in turn.
#![tactic(auto)]

#[cfg(test)]
mod contents;
#[cfg(test)]
mod disks;
#[cfg(test)]
mod faults;
#[cfg(test)]
mod files;
#[cfg(test)]
mod journals;
#[cfg(test)]
mod lanes;
#[cfg(test)]
mod layouts;
#[cfg(test)]
mod rows;
#[cfg(test)]
mod snapshots;
