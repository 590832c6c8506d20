//! Readers of fields, by what is at the front of the bytes.

ghost use Rattle.state_image.specs.rules.Fronts.{lent_entry, lent_node};
ghost use Rattle.state_image.specs.restoring.ListReaders.{LendsField};
ghost use Rattle.state_image.specs.restoring.ListReaders.{integer_at, node_front_at, entry_at};

use crate::reading::{ProcessImageReader, ReadEntry, ReadNode, read_entry, read_node};
use guest_memory::laws::are_bytes;

/// A number of 64 bits.
pub(crate) fn next_number(reader: &mut ProcessImageReader) -> Option<u64>
    ensures { LendsField (λ n. n) result reader.new (integer_at 8 reader.old) }
{
    are_bytes(reader.rest());
    reader.u64()
}

/// How many items are after.
pub(crate) fn next_count(reader: &mut ProcessImageReader) -> Option<u32>
    ensures { LendsField (λ n. n) result reader.new (integer_at 4 reader.old) }
{
    are_bytes(reader.rest());
    reader.count()
}

/// A node before its entries.
pub(crate) fn next_front<'a>(reader: &mut ProcessImageReader<'a>) -> Option<ReadNode<'a>>
    ensures { LendsField lent_node result reader.new (node_front_at reader.old) }
{
    are_bytes(reader.rest());
    read_node(reader)
}

/// An entry of a directory.
pub(crate) fn next_entry<'a>(reader: &mut ProcessImageReader<'a>) -> Option<ReadEntry<'a>>
    ensures { LendsField lent_entry result reader.new (entry_at reader.old) }
{
    are_bytes(reader.rest());
    read_entry(reader)
}
