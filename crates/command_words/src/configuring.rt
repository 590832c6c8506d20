//! What a worker is configured with.

ghost use Rattle.std.specs.Prelude.{◌≡◌, ◌∷◌, ◌++◌, [], map, codes, IfOk, IfErr, OnOk};
ghost use Rattle.command_words.specs.rules.Preparations.{IsMisconfigured, config_as};
ghost use Rattle.command_words.specs.rules.Texts.{texts_in};

use crate::bounds::{Bound, bound_of};
use crate::entries::unnamed_entry;
use std::alloc::{AllocError, Global};
use wasi_abi::Config;
use wasm_syntax::ItemList;

/// Pages of 65,536 bytes that the guest's memory may have, where no number is given.
pub(crate) const PAGES: u64 = 16;

/// Units of 65,536 bytes that all files may have, where no number is given.
pub(crate) const FILES: u64 = 16;

/// Sectors of the journal, where no number is given.
pub(crate) const JOURNAL: u64 = 256;

/// How large a worker may grow.
#[derive(Clone, Copy, Debug, PartialEq, Eq)]
pub struct Sizes {
    /// Pages of 65,536 bytes that the guest's memory may have.
    pub pages: u64,
    /// Units of 65,536 bytes that all files may have.
    pub files: u64,
    /// Sectors of the journal.
    pub journal: u64,
}

/// Why a worker isn't configured.
#[derive(Clone, Copy, Debug, PartialEq, Eq)]
pub(crate) enum Unconfigured {
    /// A number, a count or a length is out of its bounds.
    Range(Bound),
    /// A text has a zero byte, or an entry of the environment has no name: the first such one has
    /// this number, from 1 on.
    Text(Option<usize>),
    Memory,
}

impl From<AllocError> for Unconfigured {
    ghost use Rattle.command_words.specs.declared.configuring.Unconfigured.TheVariants.{Memory};

    ghost from_gives = { λ _ fault. fault ≡ Memory };

    fn from(_refused: AllocError) -> Unconfigured {
        Unconfigured::Memory
    }
}

/// Copies texts after those of a list.
fn push_texts(
    alloc: Global,
    list: &mut ItemList<ItemList<u8>>,
    texts: &[&str],
) -> Result<(), AllocError>
    ensures { OnOk result (list.new ≡ list.old ++ texts_in texts.now) }
{
    for text in texts {
        let copy = ItemList::from_vec(Vec::from_slice(alloc, text.as_bytes())?);
        list.push(copy)?;
    }
    Ok(())
}

/// The guest's arguments after the worker's name.
fn arguments_of(alloc: Global, arguments: &[&str]) -> Result<ItemList<ItemList<u8>>, AllocError>
    ensures { IfOk result (λ list. list ≡ codes "worker" ∷ texts_in arguments.now) }
{
    let mut list = ItemList::new(alloc);
    push_texts(alloc, &mut list, &["worker"])?;
    push_texts(alloc, &mut list, arguments)?;
    Ok(list)
}

/// The configuration of a worker of these sizes, with these arguments and this environment.
pub(crate) fn configure(
    alloc: Global,
    sizes: Sizes,
    arguments: &[&str],
    environment: &[&str],
) -> Result<Config, Unconfigured>
    ensures made { IfOk result (λ config. config
        ≡ config_as sizes (texts_in arguments.now) (texts_in environment.now)) }
    ensures failed { IfErr result (IsMisconfigured
        (config_as sizes (texts_in arguments.now) (texts_in environment.now))) }
{
    let arguments = arguments_of(alloc, arguments)?;
    let mut entries = ItemList::new(alloc);
    push_texts(alloc, &mut entries, environment)?;
    if let Some(bound) = bound_of(sizes, arguments.as_slice(), entries.as_slice()) {
        return Err(Unconfigured::Range(bound));
    }
    let unnamed = unnamed_entry(entries.as_slice());
    match Config::new(sizes.pages, sizes.files, sizes.journal, arguments, entries) {
        Ok(config) => Ok(config),
        Err(_) => Err(Unconfigured::Text(unnamed)),
    }
}
