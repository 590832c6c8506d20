//! Records of answers.
use wasi_abi::Answer;

/// The first byte of the record of a request.
pub const REQUEST_KIND: u8 = 1;

/// Of the end of input.
pub const END_KIND: u8 = 2;

/// Of a time of the real clock.
pub const REALTIME_KIND: u8 = 3;

/// Of a time of the monotonic clock.
pub const MONOTONIC_KIND: u8 = 4;

/// Of random bytes.
pub const RANDOM_KIND: u8 = 5;

/// An answer, and the number of steps after the call that it answered.
#[derive(Debug, Drop)]
pub struct Record {
    pub step: u64,
    pub answer: Answer,
}
