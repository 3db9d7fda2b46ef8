//! A stack.
ghost use Rattle.std.specs.Prelude.{◌≡◌, ◌<◌, [], ◌∷◌, drop, length, slice_index_or, OnOk, MatchOption};

use ent_types::Memory;
use std::alloc::Global;
use std::marker::Model;

/// A stack. Contracts see the list of its elements from the top.
#[derive(Drop)]
pub struct Stack<T> {
    items: Vec<T>,
}

impl<T> Model for Stack<T> {
    ghost use Rattle.std.specs.Prelude.{List, reverse};
    ghost use Rattle.std.specs.Coded.{coded_list};

    ghost Value = { List T };

    ghost coded = { coded_list T.code };

    ghost view = { λ s. reverse s.items.items };
}

impl<T> Stack<T> {
    /// Returns the empty stack. It takes no memory until something is pushed.
    pub fn new(alloc: Global) -> Stack<T>
        ensures { result ≡ [] }
    {
        Stack {
            items: Vec::new(alloc),
        }
    }

    /// Returns the number of elements.
    pub fn len(&self) -> usize
        ensures { result ≡ length self.now }
    {
        self.items.len()
    }

    /// Returns the element at a place from 0, counted from the top.
    pub fn at(&self, depth: usize) -> &T
        requires { depth < length self.now }
        ensures { result.now ≡ slice_index_or self.now depth result.now }
    {
        &self.items[self.items.len() - 1 - depth]
    }

    /// Pops the element at the top.
    pub fn pop(&mut self) -> Option<T>
        ensures { MatchOption result ((self.old ≡ []) × (self.new ≡ [])) (λ x. self.old ≡ x ∷ self.new) }
    {
        self.items.pop()
    }
}

impl<T: Drop> Stack<T> {
    /// Pushes an element.
    pub fn push(&mut self, item: T) -> Result<(), Memory>
        ensures { OnOk result (self.new ≡ item ∷ self.old) }
    {
        self.items.push(item)?;
        Ok(())
    }

    /// Pushes two elements, the first one above the second.
    pub fn push_two(&mut self, first: T, second: T) -> Result<(), Memory>
        ensures { OnOk result (self.new ≡ first ∷ second ∷ self.old) }
    {
        self.push(second)?;
        self.push(first)
    }

    /// Pushes three elements, the first one above the others.
    pub fn push_three(&mut self, first: T, second: T, third: T) -> Result<(), Memory>
        ensures { OnOk result (self.new ≡ first ∷ second ∷ third ∷ self.old) }
    {
        self.push_two(second, third)?;
        self.push(first)
    }

    /// Drops the element at the top, if there is one.
    pub fn lower(&mut self)
        ensures { self.new ≡ drop 1 self.old }
    {
        let _ = self.pop();
    }

    /// Drops all elements.
    pub fn clear(&mut self)
        ensures { self.new ≡ [] }
    {
        self.items.clear();
    }
}
