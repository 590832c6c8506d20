//! What is let go.
//!
//! # Choices
//!
//! - **A caller closes a process in place of dropping it.** A crate in which a process is dropped
//!   has to prove again how each of its parts is dropped: 22 functions. Where it is closed, this
//!   crate has proved them.

use crate::process::Process;
use crate::restoring::ProcessParts;
use wasi_calls::WasiState;

/// Lets a host go.
fn close_host(_host: WasiState) {}

impl Process {
    /// Lets the process go. Its memory is given back.
    pub fn close(self) {
        let Process { machine, host, .. } = self;
        machine.close();
        close_host(host);
    }
}

impl ProcessParts {
    /// Lets the parts go. Their memory is given back.
    pub(crate) fn close(self) {
        let ProcessParts { machine, host, .. } = self;
        machine.close();
        close_host(host);
    }
}
