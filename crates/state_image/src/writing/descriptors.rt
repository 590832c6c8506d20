//! The open descriptors of a process.

ghost use Rattle.std.specs.Prelude.{◌≡◌, ◌≤◌, [], ◌∷◌, length};
ghost use Rattle.std.specs.List.{flat_map};
ghost use Rattle.wasi_abi.specs.rules.Layouts.{u64_bytes};
ghost use Rattle.wasi_calls.specs.Views.{target_of};
ghost use Rattle.state_image.specs.rules.ProcessImage.{items_bytes, open_from, target_bytes};
ghost use Rattle.state_image.specs.rules.ProcessImage.{descriptor_bytes};
ghost use Rattle.state_image.specs.rules.Sinks.{Pushes};

use crate::sink::Sink;
use crate::writing::files::type_number_of;
use crate::writing::numbers::{push_count, push_u8, push_u16, push_u64};
use file_tree::Tree;
use wasi_calls::{Descriptor, Names, WasiState};

/// How many descriptors are open, and each of them, by rising number.
pub(crate) fn push_descriptors<S: Sink>(host: &WasiState, sink: &mut S) -> Result<(), S::Fault>
    ensures { Pushes S.takes sink.old
        (items_bytes (descriptor_bytes host.now.host.files)
        (open_from 0 host.now.host.descriptors)) result sink.new }
{
    let descriptors = host.descriptors();
    push_count(count_open(descriptors), sink)?;
    for (number, descriptor) in descriptors.iter().enumerate() {
        push_opened(host.tree(), number, descriptor, sink)?;
    }
    Ok(())
}

/// How many of them are open.
fn count_open(descriptors: &[Option<Descriptor>]) -> usize
    ensures { result ≡ length (open_from 0 descriptors.now) }
{
    let mut count = 0;
    for descriptor in descriptors {
        count += open_count(descriptor);
    }
    count
}

/// 1 where something is open, or else 0.
fn open_count(opened: &Option<Descriptor>) -> usize
    ensures count { result ≡ length (open_from 0 (opened.now ∷ [])) }
    ensures few { result ≤ 1 }
{
    match opened {
        Some(_) => 1,
        None => 0,
    }
}

/// What is open under a number, if anything is.
fn push_opened<S: Sink>(
    tree: &Tree,
    number: usize,
    opened: &Option<Descriptor>,
    sink: &mut S,
) -> Result<(), S::Fault>
    ensures { Pushes S.takes sink.old
        (flat_map (descriptor_bytes tree.now) (open_from number (opened.now ∷ [])))
        result sink.new }
{
    match opened {
        Some(descriptor) => push_descriptor(tree, number, descriptor, sink),
        None => Ok(()),
    }
}

fn push_descriptor<S: Sink>(
    tree: &Tree,
    number: usize,
    descriptor: &Descriptor,
    sink: &mut S,
) -> Result<(), S::Fault>
    ensures { Pushes S.takes sink.old
        (descriptor_bytes tree.now (record { number = number; descriptor = descriptor.now }))
        result sink.new }
{
    push_count(number, sink)?;
    push_target(tree, descriptor.names(), sink)?;
    push_u64(descriptor.offset(), sink)?;
    push_u16(descriptor.flags().number(), sink)?;
    push_u64(descriptor.base().number(), sink)?;
    push_u64(descriptor.inheriting_rights().number(), sink)
}

/// A stream by its number and no node, or a node by its type and number.
fn push_target<S: Sink>(tree: &Tree, names: Names, sink: &mut S) -> Result<(), S::Fault>
    ensures { Pushes S.takes sink.old (target_bytes tree.now (target_of names)) result sink.new }
{
    match names {
        Names::Stream(stream) => push_named(stream, 0, sink),
        Names::Node(node) => push_named(type_number_of(tree, node), node, sink),
    }
}

fn push_named<S: Sink>(target_type: u8, node: u64, sink: &mut S) -> Result<(), S::Fault>
    ensures { Pushes S.takes sink.old (target_type ∷ u64_bytes node) result sink.new }
{
    push_u8(target_type, sink)?;
    push_u64(node, sink)
}
