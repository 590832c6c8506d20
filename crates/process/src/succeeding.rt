//! A process that leaves what another one goes on from, and one that goes on.
//!
//! # Choices
//!
//! - **A process doesn't remember from what it goes on.** One that goes on is a process as any
//!   other, and its image is of the same form. Only what is kept of the outside begins with the
//!   origin.

ghost use Rattle.std.specs.Prelude.{◌≡◌, ◌+◌, ◌*◌, ◌<◌, ◌≤◌, ◌^◌, ◌↔◌, IfOk, IfErr, IfSome, IsSome};
ghost use Rattle.file_tree.specs.declared.limits.TheConstants.{UNIT_BYTES};
ghost use Rattle.file_tree.specs.rules.Files.{used};
ghost use Rattle.wasm_rules.specs.Linking.{IsLinkable};
ghost use Rattle.machine.specs.rules.Offers.{offer};
ghost use Rattle.machine.specs.rules.Refusals.{IsRefused, LinkDenies};
ghost use Rattle.process.specs.Successions.{IsAtStart, value_succeeding};

use crate::legacy::Legacy;
use crate::process::Process;
use machine::LinkFault;
use std::alloc::Global;
use wasi_abi::{Config, NUMBERS_END, Version};
use wasm_validate::ValidModule;

impl Process {
    ghost use Rattle.process.specs.rules.Values.{IsProcess};
    ghost use Rattle.process.specs.rules.Legacies.{HasSucceeded, left_by};

    /// What it leaves: all else is let go. There is none once the change of code would be one step
    /// too many. Its nodes have numbers that its steps can have given.
    pub fn into_legacy(self) -> Option<Legacy>
        requires { self.host.host.files.next ≤ self.steps + 2 }
        ensures left { IfSome result (λ left. left ≡ left_by self) }
        ensures exact { IsSome result ↔ (self.steps + 1 < 2 ^ 63) }
    {
        let steps = self.steps + 1;
        if steps >= NUMBERS_END {
            self.close();
            return None;
        }
        let lines = self.lines();
        let Process {
            machine,
            host,
            answers,
            requests,
            ..
        } = self;
        machine.close();
        let version = host.version();
        let last_monotonic = host.last_monotonic();
        let tree = host.into_tree();
        let _nodes = tree.len();
        Some(Legacy {
            tree,
            lines,
            steps,
            answers,
            requests,
            last_monotonic,
            version,
        })
    }

    /// The process of a module that begins, and goes on from what another one has left. Its files
    /// have room under this configuration. It is refused where `start` refuses it.
    pub fn start_from(
        alloc: Global,
        module: ValidModule,
        config: Config,
        legacy: Legacy,
    ) -> Result<Process, LinkFault>
        requires { used legacy.files ≤ config.files * UNIT_BYTES }
        ensures succeeded { IfOk result (HasSucceeded «module» config legacy) }
        ensures shows { IfOk result IsProcess }
        ensures refused { IfErr result (IsRefused config.pages «module») }
        ensures only { IfErr result (LinkDenies (IsLinkable offer config.pages «module»)) }
    {
        let _lines = legacy.lines();
        match Process::start(alloc, module, config) {
            Ok(mut process) => {
                process.go_on_from(legacy);
                Ok(process)
            }
            Err(fault) => {
                legacy.close();
                Err(fault)
            }
        }
    }

    /// A process at its start goes on from what another one has left.
    fn go_on_from(&mut self, legacy: Legacy)
        requires { IsAtStart (used legacy.files) self.old }
        ensures { self.new ≡ value_succeeding legacy self.old }
    {
        let Legacy {
            tree,
            lines,
            steps,
            answers,
            requests,
            last_monotonic,
            version,
        } = legacy;
        self.host.go_on_from(tree, last_monotonic, lines);
        self.steps = steps;
        self.answers = answers;
        self.requests = requests;
        if version == Version::Two {
            self.widen();
        }
    }
}
