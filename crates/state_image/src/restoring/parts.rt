//! Nodes that are read with all that is after them.

ghost use Rattle.std.specs.Prelude.{◌≡◌, ◌++◌, ◌∷◌, [], map, OnOk};
ghost use Rattle.wasm_syntax.specs.laws.ReadingItems.{items_at};
ghost use Rattle.state_image.specs.rules.Fronts.{lent_content, lent_entry};
ghost use Rattle.state_image.specs.restoring.ListReaders.{entry_at};
ghost use Rattle.state_image.specs.restoring.Parts.{RestoresField, held_at};
ghost use Rattle.state_image.specs.restoring.Parts.{whole_node_at, wholes_at};
ghost use Rattle.state_image.specs.restoring.SavedNodes.{lent_held, lent_whole};

use crate::reading::{ProcessImageReader, ReadContent, ReadEntry};
use crate::restoring::fault::RestoreFault;
use crate::restoring::list_readers::{next_count, next_entry, next_front};
use crate::restoring::whole_node::{WholeContent, WholeNode};
use std::alloc::{AllocError, Global};

/// How many nodes there are, and each of them. Room is taken node by node.
#[tactic(auto, unfolding(crate::specs::restoring::Parts::wholes_at))]
pub(crate) fn read_wholes<'a>(
    alloc: Global,
    reader: &mut ProcessImageReader<'a>,
) -> Result<Vec<WholeNode<'a>>, RestoreFault>
    ensures { RestoresField (λ v. map lent_whole v.items) result reader.new
        (wholes_at reader.old) }
{
    let Some(count) = next_count(reader) else {
        return Err(RestoreFault::NotAnImage);
    };
    read_nodes(alloc, count, reader)
}

/// So many nodes.
fn read_nodes<'a>(
    alloc: Global,
    count: u32,
    reader: &mut ProcessImageReader<'a>,
) -> Result<Vec<WholeNode<'a>>, RestoreFault>
    ensures { RestoresField (λ v. map lent_whole v.items) result reader.new
        (items_at whole_node_at count reader.old) }
{
    let mut nodes = Vec::new(alloc);
    for _ in 0..count {
        let node = read_whole(alloc, reader)?;
        keep_node(&mut nodes, node)?;
    }
    Ok(nodes)
}

fn keep_node<'a>(nodes: &mut Vec<WholeNode<'a>>, node: WholeNode<'a>) -> Result<(), AllocError>
    ensures { OnOk result (nodes.new.items ≡ nodes.old.items ++ node.entry ∷ []) }
{
    nodes.push(node)?;
    Ok(())
}

/// A node, and the entries after it.
#[tactic(auto, unfolding(crate::specs::restoring::Parts::whole_node_at))]
fn read_whole<'a>(
    alloc: Global,
    reader: &mut ProcessImageReader<'a>,
) -> Result<WholeNode<'a>, RestoreFault>
    ensures { RestoresField lent_whole result reader.new (whole_node_at reader.old) }
{
    let Some(node) = next_front(reader) else {
        return Err(RestoreFault::NotAnImage);
    };
    let content = read_held(alloc, node.content, reader)?;
    Ok(WholeNode {
        number: node.number,
        content,
    })
}

/// What is after the front of a node.
#[tactic(auto, unfolding(crate::specs::restoring::Parts::held_at))]
fn read_held<'a>(
    alloc: Global,
    content: ReadContent<'a>,
    reader: &mut ProcessImageReader<'a>,
) -> Result<WholeContent<'a>, RestoreFault>
    ensures { RestoresField lent_held result reader.new
        (held_at (lent_content content.entry) reader.old) }
{
    match content {
        ReadContent::Directory(count) => {
            let entries = read_entries(alloc, count, reader)?;
            Ok(WholeContent::Directory(entries))
        }
        ReadContent::File(bytes) => Ok(WholeContent::File(bytes)),
    }
}

/// So many entries. Room is taken entry by entry.
fn read_entries<'a>(
    alloc: Global,
    count: u32,
    reader: &mut ProcessImageReader<'a>,
) -> Result<Vec<ReadEntry<'a>>, RestoreFault>
    ensures { RestoresField (λ v. map lent_entry v.items) result reader.new
        (items_at entry_at count reader.old) }
{
    let mut entries = Vec::new(alloc);
    for _ in 0..count {
        let Some(entry) = next_entry(reader) else {
            return Err(RestoreFault::NotAnImage);
        };
        keep_entry(&mut entries, entry)?;
    }
    Ok(entries)
}

fn keep_entry<'a>(entries: &mut Vec<ReadEntry<'a>>, item: ReadEntry<'a>) -> Result<(), AllocError>
    ensures { OnOk result (entries.new.items ≡ entries.old.items ++ item.entry ∷ []) }
{
    entries.push(item)?;
    Ok(())
}
