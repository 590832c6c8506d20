//! All frames of a thread.

ghost use Rattle.std.specs.Prelude.{◌≡◌, ◌+◌, ◌<◌, ◌≤◌, ◌↔◌, ◌^◌, List, [], ◌∷◌, length, reverse};
ghost use Rattle.std.specs.Prelude.{slice_get, Some, IfOk, IsTrue};
ghost use Rattle.machine_frame.specs.declared.rules.frame.StackFrame.{StackFrame as OneFrame};

use machine_frame::StackFrame;
use machine_slots::limits::FRAMES;
use std::alloc::{AllocError, Global};
use std::marker::Model;

/// What is where no frame does.
const NO_FRAME: StackFrame = StackFrame {
    function: 0,
    position: 0,
    base: 0,
};

/// Frames, which contracts see as a list from the innermost out. All of their memory is taken at
/// once.
#[derive(Debug, Drop)]
pub struct Frames {
    frames: Vec<StackFrame>,
    height: usize,
    /// How many frames fell at a trap. They are still in the list, and contracts don't see them.
    fallen: usize,
}

impl Model for Frames {
    ghost use Rattle.std.specs.Prelude.{List, ◌≡◌, ◌≤◌, length, reverse, take};
    ghost use Rattle.machine_slots.specs.declared.limits.TheConstants.{FRAMES};
    ghost use Rattle.machine_frame.specs.declared.rules.frame.StackFrame.{StackFrame as OneFrame};

    ghost Value = { List OneFrame };

    ghost view = { λ s. reverse (take s.height s.frames.items) };

    ghost invariant = { λ s. (length s.frames.items ≡ FRAMES) × (s.height ≤ FRAMES) };
}

impl Frames {
    /// No frames yet. It fails only when out of memory.
    pub fn new(alloc: Global) -> Result<Frames, AllocError>
        ensures { IfOk result (λ s. s ≡ []) }
    {
        let frames = vec![in alloc; NO_FRAME; FRAMES]?;
        Ok(Frames {
            frames,
            height: 0,
            fallen: 0,
        })
    }

    #[inline(always)]
    pub fn len(&self) -> usize
        ensures len { result ≡ length self.now }
        ensures bound { result ≤ FRAMES }
    {
        self.height
    }

    #[inline(always)]
    pub fn is_empty(&self) -> bool
        ensures { IsTrue result ↔ (self.now ≡ []) }
    {
        self.height == 0
    }

    /// All frames from the outermost in.
    #[inline(always)]
    pub fn as_slice(&self) -> &[StackFrame]
        ensures { result.now ≡ reverse self.now }
    {
        &self.frames[..self.height]
    }

    /// Puts a frame inside all others.
    #[inline(always)]
    pub fn push(&mut self, frame: StackFrame)
        requires { length self.old < FRAMES }
        ensures { self.new ≡ frame ∷ self.old }
    {
        self.frames[self.height] = frame;
        self.height += 1;
    }

    /// Puts a frame inside all others. The one that was the innermost waits at this position.
    #[inline(always)]
    pub fn call(&mut self, position: usize, frame: StackFrame)
        requires some { 0 < length self.old }
        requires room { length self.old < FRAMES }
        ensures { (waiting : OneFrame) (frames : List OneFrame) → self.old ≡ waiting ∷ frames
            → self.new ≡ frame ∷ record waiting { position = position } ∷ frames }
    {
        let height = self.height;
        let frames = self.frames.as_mut_slice();
        frames[height - 1].position = position;
        frames[height] = frame;
        self.height = height + 1;
    }

    /// Takes the innermost frame away. The one that waited for it goes on behind its call. Answers
    /// that one.
    #[inline(always)]
    pub fn leave(&mut self) -> StackFrame
        requires waits { 1 < length self.old }
        requires behind { (frame waiting : OneFrame) (frames : List OneFrame)
            → self.old ≡ frame ∷ waiting ∷ frames → waiting.position + 1 < 2 ^ 64 }
        ensures { (frame waiting : OneFrame) (frames : List OneFrame)
            → self.old ≡ frame ∷ waiting ∷ frames
            → (result ≡ record waiting { position = waiting.position + 1 })
            × (self.new ≡ result ∷ frames) }
    {
        let height = self.height - 1;
        self.height = height;
        let frames = self.frames.as_mut_slice();
        let waiting = frames[height - 1];
        let position = waiting.position + 1;
        frames[height - 1].position = position;
        StackFrame {
            position,
            ..waiting
        }
    }

    /// Takes the innermost frame away.
    #[inline(always)]
    pub fn pop(&mut self) -> StackFrame
        requires { 0 < length self.old }
        ensures last { self.old ≡ result ∷ self.new }
        ensures room { length self.new < FRAMES }
    {
        self.height -= 1;
        self.frames[self.height]
    }

    /// The innermost frame.
    #[inline(always)]
    pub fn top(&self) -> StackFrame
        requires { 0 < length self.now }
        ensures { slice_get self.now 0 ≡ Some result }
    {
        self.frames[self.height - 1]
    }

    /// The frame with this number, counted from the outermost one.
    pub fn get(&self, index: usize) -> StackFrame
        requires { index < length self.now }
        ensures { slice_get (reverse self.now) index ≡ Some result }
    {
        self.frames[index]
    }

    /// Puts the innermost frame at this position.
    #[inline(always)]
    pub fn set_position(&mut self, position: usize)
        requires { 0 < length self.old }
        ensures len { length self.new ≡ length self.old }
        ensures position { (frame : OneFrame) (frames : List OneFrame) → self.old ≡ frame ∷ frames
            → self.new ≡ record frame { position = position } ∷ frames }
    {
        let top = self.height - 1;
        self.frames[top].position = position;
    }

    /// Leaves no frames.
    #[inline(always)]
    pub fn clear(&mut self)
        ensures { self.new ≡ [] }
    {
        self.height = 0;
    }

    /// Leaves no frames, and `fallen` tells where they were. No clause says that it does.
    pub fn fall(&mut self)
        ensures { self.new ≡ [] }
    {
        self.fallen = self.height;
        self.height = 0;
    }

    /// The same, where the innermost frame was at this position.
    pub fn fall_at(&mut self, position: usize)
        ensures { self.new ≡ [] }
    {
        if self.height > 0 {
            let top = self.height - 1;
            self.frames[top].position = position;
        }
        self.fall();
    }

    /// How many frames fell.
    pub fn fallen_count(&self) -> usize {
        self.fallen
    }

    /// The frame that fell with this number, from 0, counted from the innermost one out.
    pub fn fallen(&self, index: usize) -> Option<StackFrame> {
        let below = self.fallen.checked_sub(index)?.checked_sub(1)?;
        self.frames.as_slice().get(below).copied()
    }
}
