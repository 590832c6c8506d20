//! Keys of nodes in the order of their directories and names.
//!
//! The order compares a directory's number and the name as one list, so the laws of the order of
//! names are those of both.

ghost use Rattle.std.specs.Prelude.{◌≡◌, ◌≢◌, ◌<◌, ◌≤◌, [], ◌∷◌, length, option_copied};
ghost use Rattle.std.specs.Vec.{vec_len, vec_capacity};
ghost use Rattle.slab.specs.Slab.{ContainsKey};
ghost use Rattle.file_tree.specs.rules.Files.{is_before as is_name_before};
ghost use Rattle.file_tree.specs.Links.{is_in};
ghost use Rattle.file_tree.specs.Store.Cuts.{HasElement};
ghost use Rattle.file_tree.specs.Store.Named.{address_of, address_at, AreByAddress, IsCutBehind};
ghost use Rattle.file_tree.specs.Store.Named.{IsFreeKey, GetsKey, LosesKey};
ghost use Rattle.file_tree.specs.Store.Named.{in_directory, named_node};

use crate::store::node::{Hook, Node};
use slab::Slab;

// Whether a name is before another one, by the order of their bytes.
fn is_before(name: &[u8], other: &[u8]) -> bool
    ensures { result ≡ is_name_before name.now other.now }
{
    for index in 0..name.len() {
        if index >= other.len() {
            return false;
        }
        if name[index] < other[index] {
            return true;
        }
        if other[index] < name[index] {
            return false;
        }
    }
    name.len() < other.len()
}

// Whether a node with this hook hangs after a name of a directory: in a later directory, or there
// under a later name.
fn hangs_behind(hook: &Hook, directory: u64, name: &[u8]) -> bool
    ensures { result ≡ is_name_before (directory ∷ name.now) (address_of hook.now) }
{
    match hook {
        Hook::Root => false,
        Hook::Removed => false,
        Hook::In(parent, other) => {
            if directory < *parent {
                return true;
            }
            *parent == directory && is_before(name, other.as_slice())
        }
    }
}

// Whether a node with this hook hangs in a directory.
fn hangs_in(hook: &Hook, directory: u64) -> bool
    ensures { result ≡ is_in directory hook.now }
{
    match hook {
        Hook::Root => false,
        Hook::Removed => false,
        Hook::In(parent, _) => *parent == directory,
    }
}

/// How many nodes don't hang after a name of a directory. Each step halves those that are left.
pub fn count_up_to(slab: &Slab<Node>, keys: &[usize], directory: u64, name: &[u8]) -> usize
    requires { AreByAddress slab.now keys.now }
    ensures cut { IsCutBehind (directory ∷ name.now) slab.now keys.now result }
    ensures within { result ≤ length keys.now }
{
    let mut low = 0;
    let mut high = keys.len();
    while low < high {
        let middle = low + (high - low) / 2;
        if hangs_behind(&slab[keys[middle]].hook, directory, name) {
            high = middle;
        } else {
            low = middle + 1;
        }
    }
    low
}

/// The node of the key at a place, where there is one and it hangs in a directory.
pub fn node_named<'a>(
    slab: &'a Slab<Node>,
    keys: &[usize],
    place: usize,
    directory: u64,
) -> Option<&'a Node>
    requires { AreByAddress slab.now keys.now }
    ensures { option_copied result ≡ in_directory directory (named_node slab.now keys.now place) }
{
    if place >= keys.len() {
        return None;
    }
    let node = &slab[keys[place]];
    if hangs_in(&node.hook, directory) {
        return Some(node);
    }
    None
}

/// Puts a key in its place, if its node has an address. There is room for it.
pub fn put_key(slab: &Slab<Node>, names: &mut Vec<usize>, key: usize)
    requires order { AreByAddress slab.now names.old.items }
    requires there { ContainsKey slab.now key }
    requires free { IsFreeKey slab.now names.old.items key }
    requires room { address_at slab.now key ≢ [] → vec_len names.old < vec_capacity names.old }
    requires fits { vec_len names.old ≤ vec_capacity names.old }
    ensures named { GetsKey slab.now key names.old.items names.new.items }
    ensures fits { vec_len names.new ≤ vec_capacity names.new }
    ensures kept { vec_capacity names.new ≡ vec_capacity names.old }
{
    if let Hook::In(directory, name) = &slab[key].hook {
        let place = count_up_to(slab, names.as_slice(), *directory, name.as_slice());
        match names.insert(place, key) {
            Ok(()) => {}
            Err(_) => unreachable!(),
        }
    }
}

/// Takes a key out, if its node has an address.
pub fn take_key(slab: &Slab<Node>, names: &mut Vec<usize>, key: usize)
    requires order { AreByAddress slab.now names.old.items }
    requires there { ContainsKey slab.now key }
    requires listed { address_at slab.now key ≢ [] → HasElement names.old.items key }
    requires fits { vec_len names.old ≤ vec_capacity names.old }
    ensures named { LosesKey slab.now key names.old.items names.new.items }
    ensures fits { vec_len names.new ≤ vec_capacity names.new }
    ensures kept { vec_capacity names.new ≡ vec_capacity names.old }
{
    if let Hook::In(directory, name) = &slab[key].hook {
        let behind = count_up_to(slab, names.as_slice(), *directory, name.as_slice());
        names.remove(behind - 1);
    }
}
