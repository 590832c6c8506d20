//! What a process leaves to another one, which goes on from it with other code.

ghost use Rattle.std.specs.Prelude.{◌≡◌};
ghost use Rattle.file_tree.specs.rules.Files.{used};

use file_tree::Tree;
use std::marker::Model;
use wasi_abi::Version;

/// Files, counts and the last monotonic time of a process, and its version. Contracts see of its
/// lines how many they are.
#[derive(Drop)]
pub struct Legacy {
    pub(crate) tree: Tree,
    pub(crate) lines: u64,
    pub(crate) steps: u64,
    pub(crate) answers: u64,
    pub(crate) requests: u64,
    pub(crate) last_monotonic: u64,
    pub(crate) version: Version,
}

impl Model for Legacy {
    ghost use Rattle.process.specs.rules.Legacies.{LegacyValue, IsLegacy, legacy_from};

    ghost Value = { LegacyValue };

    ghost view = { λ l. legacy_from l.tree l.lines l.steps l.answers l.requests l.last_monotonic
        l.version };

    ghost invariant = { λ l. IsLegacy (legacy_from l.tree l.lines l.steps l.answers l.requests
        l.last_monotonic l.version) };
}

impl Legacy {
    ghost use Rattle.process.specs.rules.Legacies.{IsLegacy};

    /// How many bytes its files have.
    pub fn used_bytes(&self) -> u64
        ensures { result ≡ used self.now.files }
    {
        self.tree.used_bytes()
    }

    /// How many lines were emitted: the first one of the process that goes on has the next number.
    pub fn lines(&self) -> u64
        ensures value { result ≡ self.now.lines }
        ensures shows { IsLegacy self.now }
    {
        self.lines
    }

    /// How many requests were taken, or the end of requests: the first one that is asked for has
    /// the next number.
    pub fn requests(&self) -> u64
        ensures { result ≡ self.now.requests }
    {
        self.requests
    }

    /// The version of the process that goes on.
    pub fn version(&self) -> Version
        ensures value { result ≡ self.now.version }
        ensures shows { IsLegacy self.now }
    {
        self.version
    }

    /// Lets it go. Its memory is given back.
    pub fn close(self) {}
}
