//! What a worker is configured with.

ghost use Rattle.std.specs.Prelude.{◌≡◌, ◌↔◌, ◌≤◌, length, IfOk, IsOk, IsTrue};
ghost use Rattle.std.specs.List.{AllByRecursion};
ghost use Rattle.wasi_abi.specs.declared.config.TheConstants.{MOST_TEXTS};
ghost use Rattle.wasi_abi.specs.rules.Configs.{Settings, settings, IsInRange, HasTexts};
ghost use Rattle.wasi_abi.specs.rules.Configs.{AreSettingsWithinLimits, IsShortText, IsText};
ghost use Rattle.wasi_abi.specs.rules.Configs.{HasEquals, IsNamed, IsEnvironmentEntry};

use std::marker::Model;
use thiserror::Error;
use wasm_syntax::ItemList;

/// The most pages of a memory.
const MOST_PAGES: u64 = 256;

/// The most units of files.
const MOST_FILES: u64 = 64;

/// The fewest sectors of a journal.
const LEAST_JOURNAL: u64 = 64;

/// The most sectors of a journal.
const MOST_JOURNAL: u64 = 65_536;

/// The most arguments, and the most entries of an environment.
pub const MOST_TEXTS: usize = 64;

/// The most bytes of a text.
const LONGEST_TEXT: usize = 1024;

/// Why a worker can't be configured so.
#[derive(Clone, Copy, Debug, PartialEq, Eq, Error)]
pub enum ConfigFault {
    /// A number, a count of texts or the length of a text is out of its bounds.
    #[error("C1 Range")]
    Range,
    /// A text has a zero byte, or an entry of the environment has no name before its first `=`.
    #[error("C2 Text")]
    Text,
}

/// Limits, arguments and environment of a worker, within their bounds. Contracts see a
/// configuration as its settings.
#[derive(Debug, Drop)]
pub struct Config {
    pages: u32,
    files: u32,
    journal: u32,
    arguments: ItemList<ItemList<u8>>,
    environment: ItemList<ItemList<u8>>,
}

impl Model for Config {
    ghost Value = { Settings };

    ghost view = { λ c. settings c.pages c.files c.journal c.arguments c.environment };

    ghost invariant = { λ c. AreSettingsWithinLimits
        (settings c.pages c.files c.journal c.arguments c.environment) };
}

impl Config {
    /// A configuration of these settings. It takes no memory. Ranges are looked at before texts.
    pub fn new(
        pages: u64,
        files: u64,
        journal: u64,
        arguments: ItemList<ItemList<u8>>,
        environment: ItemList<ItemList<u8>>,
    ) -> Result<Config, ConfigFault>
        ensures made { IfOk result (λ c. c ≡ settings pages files journal arguments environment) }
        ensures ok { IsOk result
            ↔ AreSettingsWithinLimits (settings pages files journal arguments environment) }
        ensures range { let s = settings pages files journal arguments environment in
            (result ≡ Err ConfigFault.Range) ↔ (¬ IsInRange s) }
        ensures text { let s = settings pages files journal arguments environment in
            (result ≡ Err ConfigFault.Text) ↔ (IsInRange s × (¬ HasTexts s)) }
    {
        let in_range = (1..=MOST_PAGES).contains(&pages)
            && (1..=MOST_FILES).contains(&files)
            && (LEAST_JOURNAL..=MOST_JOURNAL).contains(&journal)
            && are_few_and_short(arguments.as_slice())
            && are_few_and_short(environment.as_slice());
        if !in_range {
            return Err(ConfigFault::Range);
        }
        if !are_texts(arguments.as_slice()) || !are_entries(environment.as_slice()) {
            return Err(ConfigFault::Text);
        }
        Ok(Config {
            pages: pages as u32,
            files: files as u32,
            journal: journal as u32,
            arguments,
            environment,
        })
    }

    /// The most pages of guest memory.
    pub fn pages(&self) -> u32
        ensures value { result ≡ self.now.pages }
        ensures within { AreSettingsWithinLimits self.now }
    {
        self.pages
    }

    /// The most bytes of all files, in units of 65,536.
    pub fn files(&self) -> u32
        ensures value { result ≡ self.now.files }
        ensures within { AreSettingsWithinLimits self.now }
    {
        self.files
    }

    /// The sectors of the journal.
    pub fn journal(&self) -> u32
        ensures value { result ≡ self.now.journal }
        ensures within { AreSettingsWithinLimits self.now }
    {
        self.journal
    }

    /// What the guest is called with, the program's name first.
    pub fn arguments(&self) -> &ItemList<ItemList<u8>>
        ensures value { result.now ≡ self.now.arguments }
        ensures within { AreSettingsWithinLimits self.now }
    {
        &self.arguments
    }

    /// Entries of a name, `=` and a value.
    pub fn environment(&self) -> &ItemList<ItemList<u8>>
        ensures value { result.now ≡ self.now.environment }
        ensures within { AreSettingsWithinLimits self.now }
    {
        &self.environment
    }
}

fn are_few_and_short(texts: &[ItemList<u8>]) -> bool
    ensures { IsTrue result
        ↔ ((length texts.now ≤ MOST_TEXTS) × AllByRecursion IsShortText texts.now) }
{
    texts.len() <= MOST_TEXTS && texts.iter().all(|text| text.len() <= LONGEST_TEXT)
}

fn are_texts(texts: &[ItemList<u8>]) -> bool
    ensures { IsTrue result ↔ AllByRecursion IsText texts.now }
{
    texts.iter().all(|text| is_text(text.as_slice()))
}

fn are_entries(texts: &[ItemList<u8>]) -> bool
    ensures { IsTrue result ↔ AllByRecursion IsEnvironmentEntry texts.now }
{
    texts.iter().all(|text| is_text(text.as_slice()) && is_named(text.as_slice()))
}

fn is_text(text: &[u8]) -> bool
    ensures { IsTrue result ↔ IsText text.now }
{
    text.iter().all(|byte| *byte != 0)
}

fn is_named(text: &[u8]) -> bool
    ensures { IsTrue result ↔ IsNamed text.now }
{
    match text {
        [] => false,
        [first, rest @ ..] => *first != b'=' && has_equals(rest),
    }
}

fn has_equals(text: &[u8]) -> bool
    ensures { IsTrue result ↔ HasEquals text.now }
{
    text.contains(&b'=')
}
