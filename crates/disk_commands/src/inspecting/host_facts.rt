//! Facts of a host: its files, and what is open.

ghost use Rattle.std.specs.Prelude.{◌≡◌, ◌++◌, [], ◌∷◌, IfOk, OnOk};
ghost use Rattle.wasi_calls.specs.Views.{target_of};
ghost use Rattle.disk_commands.specs.FactViews.{Adds, fact_value_of, values_of};
ghost use Rattle.disk_commands.specs.rules.Facts.{Single};
ghost use Rattle.disk_commands.specs.rules.DiskFacts.{descriptor_value, descriptor_values};
ghost use Rattle.disk_commands.specs.rules.DiskFacts.{host_facts, opened_values, target_number};
ghost use Rattle.disk_commands.specs.rules.DiskFacts.{target_word, usage_value};

use crate::inspecting::fact::{Fact, FactValue, Field};
use crate::inspecting::facts::{add, add_list};
use file_tree::Tree;
use file_tree::limits::NODES;
use std::alloc::{AllocError, Global};
use wasi_calls::{Descriptor, Names, WasiState};

/// The word for what a descriptor names, and the number of that stream or node.
fn named_target(tree: &Tree, names: Names) -> (&'static str, u64)
    ensures word { result.0.now ≡ target_word tree.now (target_of names) }
    ensures number { result.1 ≡ target_number (target_of names) }
{
    match names {
        Names::Stream(stream) => ("stream", u64::from(stream)),
        Names::Node(node) if tree.is_directory(node) => ("directory", node),
        Names::Node(node) => ("file", node),
    }
}

/// A descriptor that is open under a number.
fn descriptor_value(
    alloc: Global,
    tree: &Tree,
    number: usize,
    descriptor: &Descriptor,
) -> Result<FactValue<'static>, AllocError>
    ensures { IfOk result (λ value. fact_value_of value
        ≡ descriptor_value tree.now number descriptor.now) }
{
    let (kind, target) = named_target(tree, descriptor.names());
    let fields = vec![in alloc;
        Field::of_number("number", number as u64),
        Field::of_word("kind", kind),
        Field::of_number("target", target),
        Field::of_number("offset", descriptor.offset()),
    ]?;
    Ok(FactValue::Fields(fields))
}

/// Puts what is open under a number after others, if anything is.
fn push_opened(
    values: &mut Vec<FactValue>,
    alloc: Global,
    tree: &Tree,
    number: usize,
    opened: &Option<Descriptor>,
) -> Result<(), AllocError>
    ensures { OnOk result (values_of values.new.items
        ≡ values_of values.old.items ++ opened_values tree.now number opened.now) }
{
    if let Some(descriptor) = opened {
        values.push(descriptor_value(alloc, tree, number, descriptor)?)?;
    }
    Ok(())
}

/// All that is open.
fn descriptor_values(
    alloc: Global,
    tree: &Tree,
    descriptors: &[Option<Descriptor>],
) -> Result<Vec<FactValue<'static>>, AllocError>
    ensures { IfOk result (λ values. values_of values.items
        ≡ descriptor_values tree.now 0 descriptors.now) }
{
    let mut values = Vec::new(alloc);
    for (number, opened) in descriptors.iter().enumerate() {
        push_opened(&mut values, alloc, tree, number, opened)?;
    }
    Ok(values)
}

/// Adds how much of something is used, and how much there may be.
fn add_usage(
    facts: &mut Vec<Fact>,
    alloc: Global,
    name: &'static str,
    used: u64,
    limit: u64,
) -> Result<(), AllocError>
    ensures { OnOk result (Adds facts.old.items facts.new.items
        (Single name.now (usage_value used limit) ∷ [])) }
{
    let fields = vec![in alloc;
        Field::of_number("used", used),
        Field::of_number("limit", limit),
    ]?;
    add(facts, name, FactValue::Fields(fields))
}

/// Adds the files of a host, which may have so many bytes, and what is open.
pub(super) fn add_host(
    facts: &mut Vec<Fact>,
    alloc: Global,
    host: &WasiState,
    room: u64,
) -> Result<(), AllocError>
    ensures { OnOk result (Adds facts.old.items facts.new.items (host_facts room host.now.host)) }
{
    let tree = host.tree();
    add_usage(facts, alloc, "nodes", tree.len() as u64, NODES as u64)?;
    add_usage(facts, alloc, "bytes", tree.used_bytes(), room)?;
    let descriptors = descriptor_values(alloc, tree, host.descriptors())?;
    add_list(facts, "descriptor", "descriptors", descriptors)
}
