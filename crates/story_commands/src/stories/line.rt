//! What a line of a script says.

use sector_disk::FaultPoint;
use wasi_abi::Answer;
use wasm_syntax::ItemList;
use worker::story::PlannedAct;

#[derive(Debug, Drop)]
pub enum ScriptLine {
    /// Another life begins.
    Life,
    /// The source has this answer, after those before.
    Answer { answer: Answer },
    /// The worker is told to do this, after what it was told before.
    Act { act: PlannedAct },
    /// The power is cut at this call.
    Stop { point: FaultPoint },
    /// This call of the disk fails.
    Fail { point: FaultPoint },
    /// The outlet refuses the release of this number, from 1 on.
    Refuse { number: u64 },
    /// So much the cut keeps of the earlier writes, in bytes. There is at least one number.
    Tears { fronts: ItemList<u16> },
}
