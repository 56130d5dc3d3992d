// Forks that wait for insertions.
ghost use Rattle.std.specs.Prelude.{◌≡◌, ◌≤◌, ◌+◌, zero, OnOk, OnErr, IfNone, OnSome};

use super::part::{Fork, Part};
use std::alloc::{AllocError as OutOfMemory, Global};
use std::marker::Model;

/// Forks for later insertions, seen as how many they are.
#[derive(Drop)]
pub struct Pool<V> {
    forks: Vec<Box<Fork<V>>>,
}

impl<V> Model for Pool<V> {
    ghost use Rattle.std.specs.Prelude.{ℕ, length};

    ghost Value = { ℕ };

    ghost view = { λ a. length a.forks.items };
}

impl<V: Copy> Pool<V> {
    /// No forks. Takes no memory.
    pub fn new(alloc: Global) -> Pool<V>
        ensures { result ≡ 0 }
    {
        Pool {
            forks: Vec::new(alloc),
        }
    }

    /// How many there are.
    pub fn len(&self) -> usize
        ensures { result ≡ self.now }
    {
        self.forks.len()
    }

    /// Makes forks until there are `n`.
    pub fn reserve(&mut self, alloc: Global, n: usize) -> Result<(), OutOfMemory>
        ensures enough { OnOk result (n ≤ self.new) }
        ensures kept { self.old ≤ self.new }
    {
        for _made in self.forks.len()..n {
            let fork = Box::new(alloc, Fork::blank())?;
            self.forks.push(fork)?;
        }
        Ok(())
    }

    /// A fork out of the pool.
    pub fn take(&mut self) -> Option<Box<Fork<V>>>
        ensures none { IfNone result (self.old ≡ zero) }
        ensures some { OnSome result (self.new + 1 ≡ self.old) }
    {
        self.forks.pop()
    }

    /// Puts a fork back, where it has room without memory.
    pub fn give(&mut self, fork: Box<Fork<V>>)
        ensures kept { self.old ≤ self.new }
    {
        if self.forks.len() < self.forks.capacity() {
            self.forks.push_reserved(fork);
        }
    }
}
