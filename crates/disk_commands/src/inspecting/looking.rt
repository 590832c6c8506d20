//! `wasmhost inspect`.

ghost use Rattle.std.specs.Prelude.{◌≡◌, IfOk, Ok, string_bytes};
ghost use Rattle.command_words.specs.rules.Printers.{printers};
ghost use Rattle.hex.specs.Hex.{encode_lower};
ghost use Rattle.sha2.specs.Sha256.{sha256};
ghost use Rattle.disk_commands.specs.rules.DiskFacts.{disk_facts};
ghost use Rattle.disk_commands.specs.rules.Facts.{facts_words};
ghost use Rattle.disk_commands.specs.rules.Inspectings.{SaysInspected, TellsDisk};

use crate::inspecting::fact_json::json_of_facts;
use crate::inspecting::fact_text::text_of_facts;
use crate::inspecting::facts::add_facts;
use crate::on_disk::{OnDiskFault, say_disk_fault};
use command_words::{Obstacle, Printer, Status, report, say_text};
use sector_disk::Disk;
use sha2::{Digest, Sha256};
use std::alloc::{AllocError, Global};
use std::io::{self, Write};
use worker::{Inspection, inspect};

/// The digest of a module, in digits.
fn digest_of(alloc: Global, wasm: &[u8]) -> Result<String, AllocError>
    ensures { IfOk result (λ digits. string_bytes digits ≡ encode_lower (sha256 wasm.now)) }
{
    let digest: [u8; 32] = Sha256::digest(wasm);
    hex::encode(alloc, digest)
}

/// The text of all that is told of a disk, as one JSON value or one fact a line.
#[tactic(auto, using(crate::proofs::FactLemmas::added_after))]
fn text_of(alloc: Global, told: &Inspection, as_json: bool) -> io::Result<Vec<u8>>
    ensures { IfOk result (λ text. text.items ≡ facts_words as_json (disk_facts told.now)) }
{
    let digest = digest_of(alloc, told.contents.wasm.as_slice())?;
    let mut facts = Vec::new(alloc);
    add_facts(&mut facts, alloc, told, digest.as_str())?;
    if as_json {
        Ok(json_of_facts(alloc, facts.as_slice())?)
    } else {
        text_of_facts(alloc, facts.as_slice())
    }
}

/// Prints all that is told of a disk, or that there is no memory for it. Answers the exit status.
fn say_inspection<W: Write + Drop, E: Write + Drop>(
    alloc: Global,
    told: &Inspection,
    as_json: bool,
    out: &mut Printer<W>,
    err: &mut Printer<E>,
) -> Status
    ensures { SaysInspected as_json (Ok told.now) (printers out.old err.old)
        (printers out.new err.new) result }
{
    match text_of(alloc, told, as_json) {
        Ok(text) => say_text(out, text.as_slice()),
        Err(_) => report(err, Obstacle::Memory),
    }
}

/// Prints all that is on a worker's disk, as one JSON value or one fact a line. Nothing is changed
/// on the disk, but that it is synced. Answers the exit status: `Done` where the facts are printed,
/// `Refused` for a disk that is refused, `IoError` where it fails, `OutOfMemory`, `Unwritten` where
/// a write of a printer has failed.
pub fn inspect_disk<D: Disk, W: Write + Drop, E: Write + Drop>(
    alloc: Global,
    disk: &mut D,
    as_json: bool,
    out: &mut Printer<W>,
    err: &mut Printer<E>,
) -> Status
    ensures { TellsDisk as_json (D.medium disk.old) (D.medium disk.new) (printers out.old err.old)
        (printers out.new err.new) result }
{
    match inspect(alloc, disk) {
        Ok(told) => {
            let status = say_inspection(alloc, &told, as_json, out, err);
            told.close();
            status
        }
        Err(fault) => say_disk_fault(err, OnDiskFault::from(fault)),
    }
}
