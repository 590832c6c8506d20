//! Whether memory was refused to a life.

ghost use Rattle.std.specs.Prelude.{◌≡◌, false};
ghost use Rattle.std.specs.List.{All};
ghost use Rattle.story_commands.specs.rules.Sweeps.{HadMemory, is_starved, is_out_of_memory};

use sector_disk::DiskFault;
use worker::story::{LifeEnd, LifeReport};
use worker::{RecoverFault, WorkFault};

/// Whether an error is out of memory: a layer's, or that of the disk, which is in memory too.
fn is_out_of_memory(why: RecoverFault) -> bool
    ensures { result ≡ is_out_of_memory why }
{
    match why {
        RecoverFault::Worker(WorkFault::Disk(DiskFault::Memory)) => true,
        other => other.is_want_of_memory(),
    }
}

/// Whether a life has ended so.
fn is_starved(ended: LifeEnd) -> bool
    ensures { result ≡ is_starved ended }
{
    match ended {
        LifeEnd::Failed(why) => is_out_of_memory(why),
        LifeEnd::Finished | LifeEnd::Stopped => false,
    }
}

/// Whether one of these lives has ended out of memory.
pub(super) fn are_starved(reports: &[LifeReport]) -> bool
    ensures { result ≡ false → All HadMemory reports.now }
{
    for report in reports {
        if is_starved(report.ended) {
            return true;
        }
    }
    false
}
