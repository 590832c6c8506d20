//! What one cycle of a running machine comes to.

use crate::execution::pause::Paused;

/// The machine runs on with so much fuel, or pauses.
#[derive(Debug, Drop)]
pub enum Cycle {
    On(u64),
    Waits(Paused),
}
