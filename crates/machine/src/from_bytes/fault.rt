//! Why a module is not accepted.

ghost use Rattle.std.specs.Prelude.{◌≡◌};
ghost use Rattle.machine.specs.rules.Acceptance.{is_want, passed_in, place_in};
ghost use Rattle.machine.specs.declared.from_bytes.fault.ModuleFault.TheVariants as module_fault;

use crate::LinkFault;
use thiserror::Error;
use wasm_decode::{DecodeFault, PassedLimit};
use wasm_validate::ValidFault;

/// The fault of the first of the three steps that refuses the module. It is printed as that step's
/// fault.
#[derive(Clone, Copy, Debug, PartialEq, Eq, Error)]
pub enum ModuleFault {
    #[error("{0}")]
    Decode(DecodeFault),
    #[error("{0}")]
    Valid(ValidFault),
    #[error("{0}")]
    Link(LinkFault),
}

impl ModuleFault {
    /// Where in the bytes the item at fault is, for those of the decoder that have a place.
    pub fn place(&self) -> Option<usize>
        ensures { result ≡ place_in self.now }
    {
        match self {
            ModuleFault::Decode(fault) => fault.place(),
            ModuleFault::Valid(_) | ModuleFault::Link(_) => None,
        }
    }

    /// The limit of modules that the bytes pass, and where, for the one fault that says so.
    pub fn passed_limit(&self) -> Option<PassedLimit>
        ensures { result ≡ passed_in self.now }
    {
        match self {
            ModuleFault::Decode(fault) => fault.passed_limit(),
            ModuleFault::Valid(_) | ModuleFault::Link(_) => None,
        }
    }

    /// Whether the host had no room, which says nothing of the module.
    pub fn is_want_of_memory(&self) -> bool
        ensures { result ≡ is_want self.now }
    {
        matches!(
            self,
            ModuleFault::Decode(DecodeFault::Memory)
                | ModuleFault::Valid(ValidFault::Memory)
                | ModuleFault::Link(LinkFault::Memory)
        )
    }
}

impl From<DecodeFault> for ModuleFault {
    ghost from_gives = { λ fault e. e ≡ module_fault.Decode fault };

    fn from(fault: DecodeFault) -> ModuleFault {
        ModuleFault::Decode(fault)
    }
}

impl From<ValidFault> for ModuleFault {
    ghost from_gives = { λ fault e. e ≡ module_fault.Valid fault };

    fn from(fault: ValidFault) -> ModuleFault {
        ModuleFault::Valid(fault)
    }
}

impl From<LinkFault> for ModuleFault {
    ghost from_gives = { λ fault e. e ≡ module_fault.Link fault };

    fn from(fault: LinkFault) -> ModuleFault {
        ModuleFault::Link(fault)
    }
}
