//! The newest image of a worker.

use snapshot::HashedImage;
use wasi_abi::Version;

/// What the newest complete head of a worker's disk names, and the version of both.
#[derive(Debug, Drop)]
pub struct NewestProcessImage {
    pub version: Version,
    pub generation: u64,
    pub process_image: HashedImage,
}
