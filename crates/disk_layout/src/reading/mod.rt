//! The configuration and the module that are on a worker's disk, read back.

mod configuration;
mod contents;
mod texts;

pub use configuration::config_from;
pub use contents::{Contents, read_contents};
