//! A worker's disk that is only looked at.

ghost use Rattle.std.specs.Prelude.{◌≡◌};
ghost use Rattle.worker.specs.Findings.{numbers_of_found};
ghost use Rattle.worker.specs.rules.Surveys.{Surveys};

use crate::finding::find;
use crate::found::Found;
use crate::recover_fault::RecoverFault;
use crate::surveyed::Survey;
use sector_disk::Disk;
use std::alloc::Global;

/// The numbers of what was found.
fn numbers_of(found: &Found) -> Survey
    ensures { result ≡ numbers_of_found found.now }
{
    Survey {
        generation: found.generation,
        steps: found.process.steps(),
        answers: found.process.answers(),
        lines: found.process.lines(),
        records: found.records.as_slice().len() as u64,
        version: found.process.host().version(),
    }
}

/// Tells what is on a worker's disk. Syncs the disk, and reads what it shows. Nothing is replayed
/// or written: the numbers are those of the process that was saved last.
pub fn read_survey<D: Disk>(alloc: Global, disk: &mut D) -> Result<Survey, RecoverFault>
    ensures { Surveys result (D.medium disk.old) (D.medium disk.new) }
{
    if let Err(fault) = disk.sync() {
        return Err(RecoverFault::from(fault));
    }
    match find(alloc, disk) {
        Ok(found) => {
            let survey = numbers_of(&found);
            drop(found);
            Ok(survey)
        }
        Err(fault) => Err(fault),
    }
}
