//! Arguments and environment of a host.

ghost use Rattle.std.specs.Prelude.{◌≡◌};
ghost use Rattle.wasi_calls.specs.FewTexts.{AreFewTexts};

use crate::host::WasiState;
use wasm_syntax::ItemList;

impl WasiState {
    /// What the guest is called with.
    pub(crate) fn arguments(&self) -> &[ItemList<u8>]
        ensures texts { result.now ≡ self.now.host.arguments }
        ensures few { AreFewTexts result.now }
    {
        self.config.arguments().as_slice()
    }

    /// The entries of its environment.
    pub(crate) fn environment(&self) -> &[ItemList<u8>]
        ensures texts { result.now ≡ self.now.host.environment }
        ensures few { AreFewTexts result.now }
    {
        self.config.environment().as_slice()
    }
}
