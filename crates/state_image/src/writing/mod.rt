//! The image of a process, pushed into a sink.
//!
//! # Choices
//!
//! - **A process is asked, and gives its parts.** This writer is above `process`, and takes each
//!   field from a question of it. Frames and chunks of files are lent as they lie. No copy is made,
//!   and no layer below knows what an image is.
//! - **An image doesn't hold the table**, which nothing changes, nor the texts of emitted lines, of
//!   which it has the number.
//! - **A length goes out by its lowest bytes**, so writing has no premise. Of a well-typed process
//!   each length is small enough to be whole.
//! - **An image names the position at which a frame of the machine is.** What the frame shows fixes
//!   that position (`shapes_tell_positions`), also in the two parts of one `if`. So image and
//!   process determine each other to the byte.

mod counts;
mod descriptors;
mod files;
mod machine_state;
mod mark;
mod numbers;

ghost use Rattle.std.specs.Prelude.{◌≡◌, IfOk};
ghost use Rattle.state_image.specs.rules.ProcessImage.{process_image};
ghost use Rattle.state_image.specs.rules.Saving.{saved_of};
ghost use Rattle.state_image.specs.rules.Sinks.{Pushes};

use crate::byte_sink::ByteSink;
use crate::sink::Sink;
pub(crate) use crate::writing::counts::{EXITED, RUNNING, STARTING, TRAPPED};
use crate::writing::counts::{push_counts, push_phase, push_streams};
use crate::writing::descriptors::push_descriptors;
use crate::writing::files::push_files;
pub(crate) use crate::writing::files::type_number_of;
use crate::writing::machine_state::push_machine;
pub(crate) use crate::writing::mark::MARK_BYTES;
pub use crate::writing::mark::process_image_mark;
use crate::writing::mark::push_mark;
use process::Process;
use std::alloc::{AllocError, Global};

/// Pushes the image of a process, piece by piece. Memory is one piece, and each chunk of a file.
/// No memory is taken. Where the sink refuses a piece, nothing is pushed after it, and its fault
/// is the one that is given. Lines that wait are told by their number alone: the caller has
/// released them.
pub fn write_process_image_to<S: Sink>(process: &Process, sink: &mut S) -> Result<(), S::Fault>
    ensures { Pushes S.takes sink.old (process_image (saved_of process.now)) result sink.new }
{
    push_mark(process, sink)?;
    push_counts(process, sink)?;
    push_phase(process, sink)?;
    push_streams(process, sink)?;
    push_machine(process.machine(), sink)?;
    push_files(process.host().tree(), sink)?;
    push_descriptors(process.host(), sink)
}

/// The image of a process, whole. It fails only when out of memory. As with
/// `write_process_image_to`, the caller has released the lines that waited.
pub fn write_process_image(alloc: Global, process: &Process) -> Result<Vec<u8>, AllocError>
    ensures { IfOk result (λ bytes. bytes.items ≡ process_image (saved_of process.now)) }
{
    let mut sink = ByteSink::new(alloc);
    write_process_image_to(process, &mut sink)?;
    Ok(sink.into_bytes())
}
