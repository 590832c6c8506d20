//! The fields of an image, read from the front of bytes. No memory is taken.

mod cursor;
mod descriptors;
mod files;
mod machine_state;
mod mark;
mod progress;
mod words;

pub use cursor::ProcessImageReader;
pub use descriptors::{ReadDescriptor, read_descriptor};
pub use files::{ReadContent, ReadEntry, ReadNode, read_entry, read_node};
pub use machine_state::{ReadFrame, read_frame, read_memory};
pub use mark::{is_marked_otherwise, read_mark};
pub use progress::{
    ReadCounts, ReadEnd, ReadPhase, ReadStreams, read_counts, read_end, read_streams,
};
pub use words::{Words, read_word_list};
