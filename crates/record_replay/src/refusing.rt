//! An outlet that fails where it is told.
//!
//! The refused line is handed on before the fault is answered: what a reader sees is the worse
//! case.

ghost use Rattle.std.specs.Prelude.{◌≡◌};

use crate::{Outlet, OutletFault};
use wasi_calls_rules::OutputStream;

/// Hands every line on to the outlet inside. One of the releases, counted from 1, it answers by a
/// fault, whatever the outlet inside said.
#[derive(Debug, Drop)]
pub struct RefusingOutlet<O> {
    inner: O,
    until_fault: u64,
}

impl<O> RefusingOutlet<O> {
    ghost use Rattle.record_replay.specs.rules.Lists.{inner_outlet, until_fault};

    /// Release `nth`, counted from 1, is answered by a fault. With 0 none is.
    pub fn new(inner: O, nth: u64) -> Self
        ensures inside { inner_outlet result ≡ inner }
        ensures until_fault { until_fault result ≡ nth }
    {
        RefusingOutlet {
            inner,
            until_fault: nth,
        }
    }

    /// The outlet inside.
    pub fn into_inner(self) -> O
        ensures { result ≡ inner_outlet self }
    {
        let RefusingOutlet {
            inner,
            until_fault: _,
        } = self;
        inner
    }
}

impl<O: Outlet> Outlet for RefusingOutlet<O> {
    ghost use Rattle.record_replay.specs.rules.Lists.{Refuses};

    ghost takes = { λ old number line said new. Refuses O.takes old number line said new };

    fn release(
        &mut self,
        number: u64,
        stream: OutputStream,
        text: &[u8],
    ) -> Result<(), OutletFault> {
        let said = self.inner.release(number, stream, text);
        let is_refused = self.until_fault == 1;
        self.until_fault = self.until_fault.saturating_sub(1);
        if is_refused { Err(OutletFault) } else { said }
    }
}
