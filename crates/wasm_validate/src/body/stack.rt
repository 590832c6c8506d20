//! A stack.

ghost use Rattle.std.specs.Prelude.{◌≡◌, ◌≢◌, ◌-◌, ◌∷◌, [], length, drop, reverse, slice_get, OnOk};
ghost use Rattle.std.specs.Prelude.{OnErr};

use std::alloc::{AllocFailed, Global};
use std::marker::Model;

/// Items, which contracts see as a list from the top down.
#[derive(Debug, Drop)]
pub struct Stack<T> {
    items: Vec<T>,
}

impl<T> Model for Stack<T> {
    ghost use Rattle.std.specs.Prelude.{List, reverse};

    ghost Value = { List T };

    ghost view = { λ a. reverse a.items.items };
}

impl<T: Copy> Stack<T> {
    pub fn new(alloc: Global) -> Self
        ensures { result ≡ [] }
    {
        Stack {
            items: Vec::new(alloc),
        }
    }

    pub fn clear(&mut self)
        ensures { self.new ≡ [] }
    {
        self.items.clear();
    }

    pub fn len(&self) -> usize
        ensures { result ≡ length self.now }
    {
        self.items.len()
    }

    /// Fails only where memory is refused.
    pub fn push(&mut self, item: T) -> Result<(), AllocFailed<T>>
        ensures pushed { OnOk result (self.new ≡ item ∷ self.old) }
        ensures unchanged { OnErr result (self.new ≡ self.old) }
    {
        self.items.push(item)
    }

    pub fn pop(&mut self) -> Option<T>
        ensures top { result ≡ slice_get self.old 0 }
        ensures others { self.new ≡ drop 1 self.old }
    {
        self.items.pop()
    }

    /// Keeps as many items from the bottom up.
    pub fn truncate(&mut self, len: usize)
        ensures { self.new ≡ drop (length self.old - len) self.old }
    {
        self.items.truncate(len);
    }

    /// The item with this number, that on top being 0.
    pub fn get(&self, number: usize) -> Option<T>
        ensures { result ≡ slice_get self.now number }
    {
        let last = self.len().checked_sub(1)?;
        let index = last.checked_sub(number)?;
        self.items.get(index).copied()
    }

    /// The items from the bottom up.
    pub fn as_slice(&self) -> &[T]
        ensures { result.now ≡ reverse self.now }
    {
        self.items.as_slice()
    }

    /// The lowest item.
    pub fn bottom(&self) -> Option<T>
        ensures { result ≡ slice_get (reverse self.now) 0 }
    {
        self.as_slice().get(0).copied()
    }

    /// Puts an item in the place of that on top.
    pub fn replace(&mut self, item: T)
        requires { self.old ≢ [] }
        ensures { self.new ≡ item ∷ drop 1 self.old }
    {
        let last = self.len() - 1;
        self.items[last] = item;
    }
}
