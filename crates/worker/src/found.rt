//! What is on a worker's disk.

use disk_layout::{Geometry, Record};
use process::Process;
use worker_store::HashedImage;

/// The process as it was saved last, in this generation, by this image, and the records after it.
#[derive(Drop)]
pub(crate) struct Found {
    pub(crate) geometry: Geometry,
    pub(crate) generation: u64,
    pub(crate) process_image: HashedImage,
    pub(crate) process: Process,
    pub(crate) records: Vec<Record>,
}
