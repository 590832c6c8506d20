//! What tests alone can show of the program's commands. Rows are of the words of the command line,
//! of lines in and out, of what `check` prints of modules and `show` of disks. Others are of what a
//! creation prints and tells. Rows of `run` say what it prints, tells and exits with, also of a
//! worker on its disk.
//!
//! Each test is a table of rows whose expected values come from outside. Those that take memory
//! return their error, so that `scripts/runs/refused-allocations` refuses each allocation in turn.
#![tactic(auto)]

#[cfg(test)]
mod asking;
#[cfg(test)]
mod check;
#[cfg(test)]
mod command_lines;
#[cfg(test)]
mod creating;
#[cfg(test)]
mod lines;
#[cfg(test)]
mod rows;
#[cfg(test)]
mod run;
#[cfg(test)]
mod serving;
#[cfg(test)]
mod show;
#[cfg(test)]
mod stories;
