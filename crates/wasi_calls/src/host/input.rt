//! Input of a host.

ghost use Rattle.std.specs.Prelude.{◌≡◌, None, Ok};
ghost use Rattle.wasi_calls_rules.specs.WasiStates.{Descriptor as Opened};
ghost use Rattle.wasi_calls_rules.specs.Checks.{open_descriptor};
ghost use Rattle.wasi_calls_rules.specs.Moving.{target_read};
ghost use Rattle.wasi_calls.specs.rules.Calls.{question_of};

use crate::descriptor::Names;
use crate::host::WasiState;
use wasi_abi::Question;

impl WasiState {
    /// What a read of so many bytes asks for before it can be made. It is a request where it reads
    /// input, nothing is left to be read, and input hasn't ended.
    pub(crate) fn wanted_input(&self, fd: u32, len: usize) -> Option<Question>
        requires { (d : Opened) × (open_descriptor self.now.host fd ≡ Ok d) }
        ensures { (d : Opened) → open_descriptor self.now.host fd ≡ Ok d
            → result ≡ question_of (target_read d.target fd d len None self.now.host) }
    {
        let descriptor = self.descriptor(fd).unwrap();
        match descriptor.names() {
            Names::Node(_) => None,
            Names::Stream(_) if len == 0 => None,
            Names::Stream(_) if !self.unread.is_empty() => None,
            Names::Stream(_) if self.input_ended => None,
            Names::Stream(_) => Some(Question::Request),
        }
    }
}
