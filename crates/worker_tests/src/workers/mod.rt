//! Workers on their disks. Lives are of creation, slices, checkpoints, cuts and recoveries. Their
//! numbers and lines are worked by hand. Two slices come to what one comes to. Other tests show
//! which sectors a call writes, how many syncs a batch makes, and what is told of damaged disks.
//! Others show faults of sources, and a stop at each call of a disk. Upgrades are refused, and are
//! stopped or fail at each call. Workers go on from what others left. Each allocation may be
//! refused.

mod batches;
mod damages;
mod large;
mod lives;
mod saves;
mod slices;
mod sources;
mod stops;
mod successions;
mod upgrades;
pub(crate) mod working;
