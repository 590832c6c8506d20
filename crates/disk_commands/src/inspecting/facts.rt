//! The list of all facts of a disk.

ghost use Rattle.std.specs.Prelude.{◌≡◌, [], ◌∷◌, IfOk, OnOk, map};
ghost use Rattle.hex.specs.Hex.{encode_lower};
ghost use Rattle.sha2.specs.Sha256.{sha256};
ghost use Rattle.disk_commands.specs.FactViews.{Adds, fact_value_of, values_of};
ghost use Rattle.disk_commands.specs.rules.Facts.{Listed, Single};
ghost use Rattle.disk_commands.specs.rules.DiskFacts.{disk_facts, module_facts, number_fact};
ghost use Rattle.disk_commands.specs.rules.DiskFacts.{settings_facts, snapshot_facts, text_value};

use crate::inspecting::fact::{Fact, FactValue, Scalar};
use crate::inspecting::host_facts::add_host;
use crate::inspecting::process_facts::add_process;
use crate::inspecting::record_facts::add_journal;
use file_tree::limits::UNIT_BYTES;
use std::alloc::{AllocError, Global};
use wasi_abi::{Config, Version};
use wasm_syntax::ItemList;
use worker::Inspection;

/// The layout of a disk that isn't refused.
const LAYOUT: u64 = 1;

/// Adds a fact with one value.
pub(super) fn add<'a>(
    facts: &mut Vec<Fact<'a>>,
    name: &'static str,
    value: FactValue<'a>,
) -> Result<(), AllocError>
    ensures { OnOk result (Adds facts.old.items facts.new.items
        (Single name.now (fact_value_of value.entry) ∷ [])) }
{
    facts.push(Fact::Single { name, value })?;
    Ok(())
}

/// Adds a name and a number.
pub(super) fn add_number(
    facts: &mut Vec<Fact>,
    name: &'static str,
    number: u64,
) -> Result<(), AllocError>
    ensures { OnOk result (Adds facts.old.items facts.new.items
        (number_fact name.now number ∷ [])) }
{
    add(facts, name, FactValue::Plain(Scalar::Number(number)))
}

/// Adds a fact with any number of values.
pub(super) fn add_list<'a>(
    facts: &mut Vec<Fact<'a>>,
    each: &'static str,
    all: &'static str,
    values: Vec<FactValue<'a>>,
) -> Result<(), AllocError>
    ensures { OnOk result (Adds facts.old.items facts.new.items
        (Listed each.now all.now (values_of values.entry.items) ∷ [])) }
{
    facts.push(Fact::Listed { each, all, values })?;
    Ok(())
}

/// Adds the layout of the disk and the version of its worker, and the module's length and digest.
fn add_module<'a>(
    facts: &mut Vec<Fact<'a>>,
    version: Version,
    wasm: &[u8],
    digest: &'a str,
) -> Result<(), AllocError>
    requires { digest.now ≡ encode_lower (sha256 wasm.now) }
    ensures { OnOk result (Adds facts.old.items facts.new.items
        (module_facts version wasm.now)) }
{
    add_number(facts, "layout", LAYOUT)?;
    add_number(facts, "version", u64::from(version.number()))?;
    add_number(facts, "module", wasm.len() as u64)?;
    add(facts, "digest", FactValue::Plain(Scalar::Word(digest)))
}

/// Texts, as values.
fn text_values<'a>(
    alloc: Global,
    texts: &'a [ItemList<u8>],
) -> Result<Vec<FactValue<'a>>, AllocError>
    ensures { IfOk result (λ values. values_of values.items ≡ map text_value texts.now) }
{
    let mut values = Vec::new(alloc);
    for text in texts {
        values.push(FactValue::Plain(Scalar::Text(text.as_slice())))?;
    }
    Ok(values)
}

/// Adds the numbers and the texts of a configuration.
fn add_settings<'a>(
    facts: &mut Vec<Fact<'a>>,
    alloc: Global,
    config: &'a Config,
) -> Result<(), AllocError>
    ensures { OnOk result (Adds facts.old.items facts.new.items (settings_facts config.now)) }
{
    add_number(facts, "pages", u64::from(config.pages()))?;
    add_number(facts, "files", u64::from(config.files()))?;
    add_number(facts, "journal", u64::from(config.journal()))?;
    let arguments = text_values(alloc, config.arguments().as_slice())?;
    add_list(facts, "argument", "arguments", arguments)?;
    let environment = text_values(alloc, config.environment().as_slice())?;
    add_list(facts, "environment", "environment", environment)
}

/// Adds where a snapshot lies.
fn add_snapshot(facts: &mut Vec<Fact>, generation: u64, bytes: u64) -> Result<(), AllocError>
    ensures { OnOk result (Adds facts.old.items facts.new.items
        (snapshot_facts generation bytes)) }
{
    add_number(facts, "generation", generation)?;
    add_number(facts, "area", generation % 2)?;
    add_number(facts, "image", bytes)
}

/// Adds all facts of a disk, whose module has this digest.
pub(super) fn add_facts<'a>(
    facts: &mut Vec<Fact<'a>>,
    alloc: Global,
    told: &'a Inspection,
    digest: &'a str,
) -> Result<(), AllocError>
    requires { digest.now ≡ encode_lower (sha256 told.now.contents.wasm) }
    ensures { OnOk result (Adds facts.old.items facts.new.items (disk_facts told.now)) }
{
    let contents = &told.contents;
    let room = u64::from(contents.config.files()) * UNIT_BYTES;
    let version = told.process.version();
    add_module(facts, version, contents.wasm.as_slice(), digest)?;
    add_settings(facts, alloc, &contents.config)?;
    add_snapshot(facts, told.generation, told.process_image_bytes)?;
    add_process(facts, alloc, &told.process, told.question)?;
    add_host(facts, alloc, told.process.host(), room)?;
    add_journal(facts, alloc, told.records.as_slice(), told.journal_left)
}
