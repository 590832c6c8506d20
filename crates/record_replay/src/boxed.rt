//! Any source and any outlet, in boxes that `main` or a test makes.
//!
//! A box's relation is that of what it holds. Concrete types show that too, in tests alone, by two
//! proofs that cite names of the prover's own (`read_made`).

use crate::{Outlet, OutletFault, Source, SourceFault};
use wasi_abi::{Answer, Question};
use wasi_calls_rules::OutputStream;

/// A source that is known only when the program runs. It means what the source in the box means.
#[derive(Drop)]
pub struct AnySource(pub Box<dyn Source + Drop>);

impl Source for AnySource {
    ghost use Rattle.std.specs.Prelude.{◌≡◌};

    // The source in the box answered, and the box holds what it became.
    ghost gives = { λ s question said after. (x : _) × (Source-box s.0).gives s.0.value
        question said x × (after ≡ record s { 0 = record s.0 { value = x } }) };

    fn answer(&mut self, question: Question) -> Result<Option<Answer>, SourceFault> {
        (*self.0).answer(question)
    }
}

/// An outlet that is known only when the program runs. It means what the outlet in the box means.
#[derive(Drop)]
pub struct AnyOutlet(pub Box<dyn Outlet + Drop>);

impl Outlet for AnyOutlet {
    ghost use Rattle.std.specs.Prelude.{◌≡◌};

    // The outlet in the box took the line, and the box holds what it became.
    ghost takes = { λ o number line said after. (x : _)
        × (Outlet-box o.0).takes o.0.value number line said x
        × (after ≡ record o { 0 = record o.0 { value = x } }) };

    fn release(
        &mut self,
        number: u64,
        stream: OutputStream,
        text: &[u8],
    ) -> Result<(), OutletFault> {
        (*self.0).release(number, stream, text)
    }
}
