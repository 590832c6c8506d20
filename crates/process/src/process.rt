//! A process, and what is known of it.
//!
//! # Choices
//!
//! - **What a process does is said of every process of the rules that it shows.** Of the lines that
//!   were released it keeps the number alone, so it shows one for each choice of their texts.

ghost use Rattle.std.specs.Prelude.{◌≡◌, ◌+◌, ◌<◌, ◌≤◌, ◌^◌, IfOk, IfErr, length, option_map};
ghost use Rattle.wasm_rules.specs.Linking.{IsLinkable};
ghost use Rattle.machine.specs.rules.Offers.{offer};
ghost use Rattle.machine.specs.rules.Refusals.{IsRefused, LinkDenies};

use crate::calling::end_with_program;
use crate::stop::ProcessEnd;
use guest_memory::Memory;
use machine::{LinkFault, Machine, link};
use std::alloc::Global;
use std::marker::Model;
use wasi_abi::{Config, Version};
use wasi_calls::{Line, WasiState};
use wasm_validate::ValidModule;

/// A module that runs under a configuration. Contracts see its machine, its host, how far it has
/// come and how it ended.
#[derive(Drop)]
pub struct Process {
    pub(crate) alloc: Global,
    pub(crate) machine: Machine,
    pub(crate) host: WasiState,
    pub(crate) steps: u64,
    pub(crate) answers: u64,
    pub(crate) requests: u64,
    pub(crate) ended: Option<ProcessEnd>,
}

impl Model for Process {
    ghost use Rattle.process.specs.rules.Values.{ProcessValue, IsProcess, process_of};

    ghost Value = { ProcessValue };

    ghost view = { λ p. process_of p.machine p.host p.steps p.answers p.requests p.ended };

    ghost invariant = { λ p. IsProcess
        (process_of p.machine p.host p.steps p.answers p.requests p.ended) };
}

impl Process {
    ghost use Rattle.machine.specs.rules.Values.{memory_of};
    ghost use Rattle.wasi_abi.specs.declared.version.Version.TheVariants.{One};
    ghost use Rattle.process.specs.rules.Values.{IsProcess, HasStarted, HasReleased, HasWidened};
    ghost use Rattle.process.specs.rules.Values.{ending_of, lines_in, waiting_in};

    /// The process of a module that begins. All memory that its machine needs is taken here. The
    /// fault is the first in the order of `LinkFault`.
    pub fn start(alloc: Global, module: ValidModule, config: Config) -> Result<Process, LinkFault>
        ensures started { IfOk result (HasStarted «module» config) }
        ensures shows { IfOk result IsProcess }
        ensures refused { IfErr result (IsRefused config.pages «module») }
        ensures only { IfErr result (LinkDenies (IsLinkable offer config.pages «module»)) }
    {
        let machine = link(alloc, module, config.pages())?;
        let Ok(mut host) = WasiState::new(alloc, config, Version::One) else {
            machine.close();
            return Err(LinkFault::Memory);
        };
        let ended = end_with_program(alloc, &machine, &mut host);
        Ok(Process {
            alloc,
            machine,
            host,
            steps: 0,
            answers: 0,
            requests: 0,
            ended,
        })
    }

    /// How many counted steps were taken: fewer than 2^63.
    pub fn steps(&self) -> u64
        ensures value { result ≡ self.now.steps }
        ensures shows { IsProcess self.now }
    {
        self.steps
    }

    /// How many answers from outside were taken.
    pub fn answers(&self) -> u64
        ensures value { result ≡ self.now.answers }
    {
        self.answers
    }

    /// How many of those were a request, or the end of requests.
    pub fn requests(&self) -> u64
        ensures value { result ≡ self.now.requests }
    {
        self.requests
    }

    /// How many lines were emitted: fewer than 2^63 - 2.
    pub fn lines(&self) -> u64
        ensures value { result ≡ lines_in self.now }
        ensures few { result + 2 < 2 ^ 63 }
    {
        self.host.released_count() + self.host.waiting_lines().len() as u64
    }

    /// The lines that were emitted and not released yet, in their order. The first one has the
    /// number after those that were released.
    pub fn waiting(&self) -> &[Line]
        ensures { result.now ≡ waiting_in self.now }
    {
        self.host.waiting_lines()
    }

    /// Its machine.
    pub fn machine(&self) -> &Machine
        ensures { result.now ≡ self.now.machine }
    {
        &self.machine
    }

    /// Its host.
    pub fn host(&self) -> &WasiState
        ensures { result.now ≡ self.now.host }
    {
        &self.host
    }

    /// How it has ended, if it has.
    pub fn reached_end(&self) -> Option<ProcessEnd>
        ensures value { option_map ending_of result ≡ self.now.ended }
        ensures shows { IsProcess self.now }
    {
        self.ended
    }

    /// The version, which says how long requests and random bytes may be.
    pub fn version(&self) -> Version
        ensures { result ≡ self.now.host.host.version }
    {
        self.host.version()
    }

    /// It is of version 2 from now on, which counts as an answer.
    pub fn widen(&mut self)
        requires { self.old.host.host.version ≡ One }
        ensures { HasWidened self.old self.new }
    {
        self.host.widen();
        self.answers += 1;
    }

    /// The guest's memory.
    pub fn memory(&self) -> &Memory
        ensures { result.now ≡ memory_of self.now.machine }
    {
        self.machine.memory()
    }

    /// The first `count` lines that wait were released, and wait no more.
    pub fn released(&mut self, count: usize)
        requires { count ≤ length (waiting_in self.old) }
        ensures { HasReleased count self.old self.new }
    {
        self.host.release(count);
    }
}
