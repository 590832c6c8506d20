//! Running a thread cycle by cycle (Core Specification 1.0, sections 4.4.7, 4.4.8 and 4.5.5): its
//! frames, calls, returns and ends, and the calls of the host. What a machine holds (`Executable`,
//! `State`) and why it pauses (`Pause`) are defined here.

mod by_register_code;
mod calls;
pub mod code;
pub mod cycle;
mod functions;
mod machine_loop;
pub mod pause;
pub mod state;
mod waiting;

pub use calls::clear;
pub use code::Executable;
pub use functions::is_same;
pub use machine_loop::go_on;
pub use pause::{Arguments, HostCall, Pause, Paused};
pub use state::State;
pub use waiting::{waiting_call, words_taken};
