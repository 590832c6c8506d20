//! What tests alone can show of the host's side. Rows are of numbers, layouts and configurations of
//! WASI, of each call on memory, streams and files, and of answers from outside. Others are of the
//! tree of files, of sources and outlets, and of processes step after step. Images are written,
//! changed, and made processes again.
//!
//! Each test is a table of rows whose expected values come from outside. Those that take memory
//! return their error, so that `scripts/runs/refused-allocations` refuses each allocation in turn.
#![tactic(auto)]

#[cfg(test)]
mod abi;
#[cfg(test)]
mod call_stories;
#[cfg(test)]
mod calls;
#[cfg(test)]
mod images;
#[cfg(test)]
mod large_images;
#[cfg(test)]
mod process_image_stop;
#[cfg(test)]
mod processes;
#[cfg(test)]
mod rows;
#[cfg(test)]
mod sources;
#[cfg(test)]
mod trees;
