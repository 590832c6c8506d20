//! A machine that is being put together.

ghost use Rattle.std.specs.Prelude.{◌≡◌};

use crate::execution::{Executable, State, clear};
use crate::instance::{entry_of, first_pages};
use crate::loading::fault::LoadFault;
use crate::loading::fits::fits_program;
use crate::loading::parts::{push_frame, push_slot, set_bytes};
use crate::running_machine::Machine;
use std::alloc::Global;
use std::marker::Model;

/// A linked module whose machine is being put together. Contracts see the module, and the parts as
/// a machine would show them.
#[derive(Debug, Drop)]
pub struct Loading {
    code: Executable,
    state: State,
    most_pages: u32,
}

impl Model for Loading {
    ghost use Rattle.machine.specs.rules.Values.{MachineValue};
    ghost use Rattle.machine.specs.Insides.{seen, IsLoading};

    ghost Value = { MachineValue };

    ghost view = { λ m. seen m.code m.state m.most_pages };

    ghost invariant = { λ m. IsLoading m.code m.state m.most_pages };
}

impl Machine {
    ghost use Rattle.wasm_rules.specs.Validity.{IsValid};
    ghost use Rattle.machine.specs.rules.Values.{HoldsMemory};
    ghost use Rattle.machine.specs.rules.Loading.{emptied};

    /// Takes frames, slots, globals and calls to come away, so that others can be put in their
    /// place. Module, table and memory remain. No memory is taken.
    pub fn into_loading(self) -> Loading
        requires { HoldsMemory self }
        ensures emptied { result ≡ emptied self }
        ensures valid { IsValid self.guest }
    {
        let Machine {
            code,
            mut state,
            most_pages,
        } = self;
        clear(&mut state);
        state.globals.clear();
        Loading {
            code,
            state,
            most_pages,
        }
    }
}

impl Loading {
    ghost use Rattle.std.specs.Prelude.{◌≢◌, ◌⊎◌, ℕ, OnOk, OnErr, IfOk, IfErr, MatchResult, []};
    ghost use Rattle.std.specs.Prelude.{sum_by, length};
    ghost use Rattle.wasm_rules.specs.Linking.{HasEntry};
    ghost use Rattle.machine_slots.specs.rules.Places.{ShownFrame};
    ghost use Rattle.machine_slots.specs.declared.limits.TheConstants.{FRAMES};
    ghost use Rattle.machine_slots.specs.declared.slots.TheConstants.{SLOTS};
    ghost use Rattle.machine_frame.specs.rules.Stacked.{slots_held};
    ghost use Rattle.machine.specs.declared.loading.fault.LoadFault.TheVariants.{Unfit};
    ghost use Rattle.machine.specs.rules.Values.{least_of, with_memory};
    ghost use Rattle.machine.specs.rules.Loading.{BytesDenied, IsSlotPushed, LoadDenies, ShowsSome};
    ghost use Rattle.machine.specs.rules.Loading.{with_call, with_frame, with_global};

    /// Puts a frame inside all others, which has no slots yet. `Unfit` where there are 512. Takes
    /// no memory.
    pub fn push_frame(&mut self, function: u32, position: usize) -> Result<(), LoadFault>
        ensures pushed { OnOk result (self.new ≡ with_frame function position self.old) }
        ensures full { IfErr result (λ e. (e ≡ Unfit)
            × (length self.old.state.frames ≡ FRAMES)) }
        ensures kept { OnErr result (self.new ≡ self.old) }
    {
        push_frame(&mut self.state, function, position)
    }

    /// Puts a slot after those of the innermost frame. `Unfit` where there is no frame, or where
    /// all frames together have 69,632 slots. Takes no memory.
    pub fn push_slot(&mut self, word: u64) -> Result<(), LoadFault>
        ensures pushed { OnOk result ((self.old.state.frames ≢ [])
            × IsSlotPushed word self.old self.new) }
        ensures full { IfErr result (λ e. (e ≡ Unfit) × ((self.old.state.frames ≡ [])
            ⊎ (slots_held self.old.state.frames ≡ SLOTS))) }
        ensures kept { OnErr result (self.new ≡ self.old) }
    {
        push_slot(&mut self.state, word)
    }

    /// Puts a global after the others. It fails only when out of memory.
    pub fn push_global(&mut self, word: u64) -> Result<(), LoadFault>
        ensures pushed { OnOk result (self.new ≡ with_global word self.old) }
        ensures memory { IfErr result (λ e. e ≡ LoadFault.Memory) }
        ensures kept { OnErr result (self.new ≡ self.old) }
    {
        self.state.globals.push(word)?;
        Ok(())
    }

    /// Puts `_start` before the calls to come. `Unfit` where the module exports no such function.
    pub fn push_start(&mut self) -> Result<(), LoadFault>
        ensures pushed { OnOk result ((entry : ℕ) × HasEntry self.old.guest entry
            × (self.new ≡ with_call entry self.old)) }
        ensures none { IfErr result (λ e. e ≡ Unfit → (entry : ℕ)
            → HasEntry self.old.guest entry → ⊥) }
        ensures kept { OnErr result (self.new ≡ self.old) }
    {
        let Some(entry) = entry_of(self.code.module.module()) else {
            return Err(LoadFault::Unfit);
        };
        self.state.later.push(entry)?;
        Ok(())
    }

    /// Gives memory these bytes. `Unfit` where they aren't whole pages, fewer than the module's
    /// minimum, or more than memory may have. Takes memory only where they are fewer than it has.
    pub fn set_memory(&mut self, alloc: Global, bytes: &[u8]) -> Result<(), LoadFault>
        ensures set { OnOk result (self.new ≡ with_memory self.old (record {
          bytes = bytes.now;
          limit = self.old.limit;
        })) }
        ensures refused { IfErr result (BytesDenied bytes.now (least_of self.old.guest)
            self.old.most_pages) }
        ensures kept { OnErr result (self.new ≡ self.old) }
    {
        let least = first_pages(self.code.module.module().memories.as_slice());
        set_bytes(alloc, &mut self.state.memory, least, bytes)
    }

    /// Whether the parts show some configuration. Takes memory as a check of the module does, and
    /// gives it back.
    fn check(&self, alloc: Global) -> Result<(), LoadFault>
        ensures shows { OnOk result (ShowsSome self.now) }
        ensures refused { IfErr result (LoadDenies self.now) }
    {
        let told = fits_program(alloc, &self.code, &self.state)?;
        if told { Ok(()) } else { Err(LoadFault::Unfit) }
    }

    /// The machine with these parts. `Unfit` where they show no configuration of a program of the
    /// module. Takes time as a check of each frame's function, and memory as a check of the module
    /// does, which it gives back.
    pub fn finish(self, alloc: Global) -> Result<Machine, LoadFault>
        ensures same { IfOk result (λ m. m ≡ self) }
        ensures shows { OnOk result (ShowsSome self) }
        ensures refused { IfErr result (LoadDenies self) }
    {
        match self.check(alloc) {
            Ok(()) => {
                let Loading {
                    code,
                    state,
                    most_pages,
                } = self;
                Ok(Machine {
                    code,
                    state,
                    most_pages,
                })
            }
            Err(fault) => {
                self.close();
                Err(fault)
            }
        }
    }

    /// Lets the parts go. Their memory is given back.
    pub fn close(self) {}
}
