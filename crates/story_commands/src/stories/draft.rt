//! Lives that are being read.

use wasm_syntax::ItemList;
use worker::story::PlannedLife;

/// What the lines so far say.
#[derive(Debug, Drop)]
pub struct StoryDraft {
    /// The lives before the last `life`.
    pub lives: ItemList<PlannedLife>,
    /// The one after it.
    pub life: PlannedLife,
    /// Whether there was a `life`.
    pub is_begun: bool,
}
