//! Descriptors of an image, made again.

ghost use Rattle.std.specs.Prelude.{◌≡◌, IfNone, IfSome};
ghost use Rattle.wasi_calls_rules.specs.WasiStates.{Target, Descriptor as Opened};
ghost use Rattle.wasi_calls.specs.Views.{target_of};
ghost use Rattle.state_image.specs.restoring.Opened.{IsTargetOf, IsReadAs};

use crate::reading::ReadDescriptor;
use crate::writing::type_number_of;
use file_tree::Tree;
use wasi_calls::{Descriptor, LAST_STREAM, Names};

/// The descriptor of which this is told, where there is one that is within its bounds. Of a node
/// the type is told, which is that of the tree's. Whether it is there is not tested.
pub fn descriptor_of(tree: &Tree, read: &ReadDescriptor) -> Option<Descriptor>
    ensures made { IfSome result (λ d. IsReadAs tree.now read.now d) }
    ensures none { IfNone result ((d : Opened) → IsReadAs tree.now read.now d → ⊥) }
{
    let names = names_of(tree, read.target_type, read.node)?;
    Descriptor::from_numbers(names, read.offset, read.flags, read.base, read.inheriting)
}

/// A stream by its number and no node, or a node by its type and number.
fn names_of(tree: &Tree, target_type: u8, node: u64) -> Option<Names>
    ensures made { IfSome result (λ names. IsTargetOf tree.now target_type node (target_of names)) }
    ensures none { IfNone result ((t : Target) → IsTargetOf tree.now target_type node t → ⊥) }
{
    if target_type <= LAST_STREAM && node == 0 {
        return Some(Names::Stream(target_type));
    }
    if target_type == type_number_of(tree, node) {
        return Some(Names::Node(node));
    }
    None
}
