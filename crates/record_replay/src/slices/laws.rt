//! Laws of slices. The functions do nothing: what they ensure is the law.

ghost use Rattle.record_replay.specs.laws.SliceLaws.{SlicesAdd, SlicesAddInVain, OneSlice};

use crate::{Outlet, Source};

/// Two slices, of which the first took all its steps, are one.
pub fn slices_add<S: Source, O: Outlet>()
    ensures { SlicesAdd S.gives O.takes }
{}

/// A slice that fails after one that took all its steps is one that fails.
pub fn slices_add_in_vain<S: Source, O: Outlet>()
    ensures { SlicesAddInVain S.gives O.takes }
{}

/// What a slice does is told by its process, its fuel and the answers that are handed over.
pub fn one_slice()
    ensures { OneSlice }
{}
