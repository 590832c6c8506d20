//! The open descriptors of an image, made again.

ghost use Rattle.std.specs.Prelude.{◌≡◌, ◌≢◌, ◌↔◌, ◌<◌, ◌≤◌, ◌++◌, ◌∷◌, [], ℕ, List};
ghost use Rattle.std.specs.Prelude.{IsTrue, IfOk, OnOk, length, Option, Some, Err};
ghost use Rattle.std.specs.List.{flat_map};
ghost use Rattle.wasi_calls_rules.specs.WasiStates.{Descriptor as Opened};
ghost use Rattle.state_image.specs.declared.restoring.fault.RestoreFault.TheVariants as fault;
ghost use Rattle.state_image.specs.rules.ProcessImage.{Numbered, items_bytes, open_from};
ghost use Rattle.state_image.specs.rules.ProcessImage.{descriptor_bytes};
ghost use Rattle.state_image.specs.restoring.Descriptors.{AreRestorable, AreOpened, CanComeBehind};
ghost use Rattle.state_image.specs.restoring.Descriptors.{IsReadBehind, closed_up_to};

use crate::reading::{ProcessImageReader, read_descriptor};
use crate::restoring::fault::RestoreFault;
use crate::restoring::opened::descriptor_of;
use file_tree::Tree;
use std::alloc::{AllocError, Global};
use wasi_calls::Descriptor;
use wasi_calls_rules::limits::DESCRIPTORS;

/// What is open under each number, by the descriptors that are next in an image. It reads each byte
/// once, and takes no more memory than that of all places.
pub(crate) fn restore_descriptors(
    alloc: Global,
    tree: &Tree,
    reader: &mut ProcessImageReader,
) -> Result<Vec<Option<Descriptor>>, RestoreFault>
    ensures made { IfOk result (λ v. reader.old
        ≡ items_bytes (descriptor_bytes tree.now) (open_from 0 v.items) ++ reader.new) }
    ensures all { IfOk result (λ v. AreRestorable v.items) }
    ensures refused { result ≡ Err fault.NotAnImage → (ds : List (Option Opened)) (rest : List ℕ)
        → AreRestorable ds
        → reader.old ≢ items_bytes (descriptor_bytes tree.now) (open_from 0 ds) ++ rest }
{
    let Some(count) = reader.count() else {
        return Err(RestoreFault::NotAnImage);
    };
    let mut descriptors = Vec::new(alloc);
    open_descriptors(tree, count, reader, &mut descriptors)?;
    close_up_to(&mut descriptors, DESCRIPTORS)?;
    Ok(descriptors)
}

/// Opens so many descriptors, by rising numbers. None was open before.
fn open_descriptors(
    tree: &Tree,
    count: u32,
    reader: &mut ProcessImageReader,
    descriptors: &mut Vec<Option<Descriptor>>,
) -> Result<(), RestoreFault>
    requires { descriptors.old.items ≡ [] }
    ensures made { OnOk result
        (AreOpened tree.now count descriptors.new.items reader.old reader.new) }
    ensures refused { result ≡ Err fault.NotAnImage → (ds : List (Option Opened)) (rest : List ℕ)
        → AreRestorable ds → length (open_from 0 ds) ≡ count
        → reader.old ≢ flat_map (descriptor_bytes tree.now) (open_from 0 ds) ++ rest }
{
    for _ in 0..count {
        open_descriptor(tree, reader, descriptors)?;
    }
    Ok(())
}

/// Opens a descriptor under its number, which is after those of the others.
fn open_descriptor(
    tree: &Tree,
    reader: &mut ProcessImageReader,
    descriptors: &mut Vec<Option<Descriptor>>,
) -> Result<(), RestoreFault>
    ensures made { OnOk result (IsReadBehind tree.now descriptors.old.items descriptors.new.items
        reader.old reader.new) }
    ensures refused { result ≡ Err fault.NotAnImage → (d : Numbered) (rest : List ℕ)
        → CanComeBehind descriptors.old.items d
        → reader.old ≢ descriptor_bytes tree.now d ++ rest }
{
    let Some(read) = read_descriptor(reader) else {
        return Err(RestoreFault::NotAnImage);
    };
    let number = read.number as usize;
    if !is_next(descriptors.as_slice(), number) {
        return Err(RestoreFault::NotAnImage);
    }
    let Some(descriptor) = descriptor_of(tree, &read) else {
        return Err(RestoreFault::NotAnImage);
    };
    open_under(descriptors, number, descriptor)?;
    Ok(())
}

/// Whether a number is after those of a list, and one of a place.
fn is_next(descriptors: &[Option<Descriptor>], number: usize) -> bool
    ensures { IsTrue result ↔ ((length descriptors.now ≤ number) × (number < DESCRIPTORS)) }
{
    descriptors.len() <= number && number < DESCRIPTORS
}

/// Opens a descriptor under a number that is after those of a list.
fn open_under(
    descriptors: &mut Vec<Option<Descriptor>>,
    number: usize,
    descriptor: Descriptor,
) -> Result<(), AllocError>
    requires { length descriptors.old.items ≤ number }
    ensures { OnOk result (descriptors.new.items
        ≡ closed_up_to number descriptors.old.items ++ Some descriptor ∷ []) }
{
    close_up_to(descriptors, number)?;
    descriptors.push(Some(descriptor))?;
    Ok(())
}

/// Leaves nothing open under the numbers from the end of a list up to this one.
fn close_up_to(descriptors: &mut Vec<Option<Descriptor>>, number: usize) -> Result<(), AllocError>
    requires { length descriptors.old.items ≤ number }
    ensures { OnOk result (descriptors.new.items ≡ closed_up_to number descriptors.old.items) }
{
    for _ in descriptors.as_slice().len()..number {
        descriptors.push(None)?;
    }
    Ok(())
}
