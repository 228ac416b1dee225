//! A queue of numbers in ascending order.

ghost use Rattle.std.specs.Prelude.{◌≡◌, ◌<◌, ◌==◌, [], nat_eq, length, position, slice_get, OnOk, OnErr};
ghost use Rattle.std.specs.List.{remove};
ghost use Rattle.post.specs.Kept.{with_number, without_last, taken_out};

use shard_base::OutOfMemory;
use std::alloc::Global;
use std::collections::VecDeque;
use std::marker::Model;

/// The numbers of the messages that wait on one direction or for one receiver, rising.
#[derive(Drop)]
pub struct Queue {
    numbers: VecDeque<u64>,
}

impl Model for Queue {
    ghost use Rattle.std.specs.Prelude.{ℕ, List};

    ghost Value = { List ℕ };

    ghost view = { λ a. a.numbers.items };
}

fn place_in(numbers: &VecDeque<u64>, number: u64) -> Option<usize>
    ensures { result ≡ position (λ n. nat_eq n number) numbers.now.items }
{
    numbers.iter().position(|each| *each == number)
}

fn remove_at(numbers: &mut VecDeque<u64>, at: usize)
    requires { at < length numbers.old.items }
    ensures { numbers.new.items ≡ remove numbers.old.items at }
{
    numbers.remove(at);
}

impl Queue {
    pub(crate) fn new(alloc: Global) -> Queue
        ensures { result ≡ [] }
    {
        Queue {
            numbers: VecDeque::new(alloc),
        }
    }

    /// How many there are.
    pub fn len(&self) -> usize
        ensures { result ≡ length self.now }
    {
        self.numbers.len()
    }

    /// Whether there is none.
    pub fn is_empty(&self) -> bool
        ensures { result ≡ (length self.now == 0) }
    {
        self.numbers.is_empty()
    }

    /// The number at an index, from 0 on.
    pub fn get(&self, index: usize) -> Option<u64>
        ensures { result ≡ slice_get self.now index }
    {
        match self.numbers.get(index) {
            Some(number) => Some(*number),
            None => None,
        }
    }

    /// The least number.
    pub fn first(&self) -> Option<u64>
        ensures { result ≡ slice_get self.now 0 }
    {
        self.get(0)
    }

    /// Puts a number at the end. Want of memory changes nothing.
    pub(crate) fn push(&mut self, number: u64) -> Result<(), OutOfMemory>
        ensures ok { OnOk result (self.new ≡ with_number number self.old) }
        ensures err { OnErr result (self.new ≡ self.old) }
    {
        self.numbers.push_back(number)?;
        Ok(())
    }

    /// Forgets the last number.
    pub(crate) fn pop(&mut self)
        ensures { self.new ≡ without_last self.old }
    {
        let kept = self.numbers.len().saturating_sub(1);
        self.numbers.truncate(kept);
    }

    /// Takes a number out. It costs the steps to it from the front.
    pub(crate) fn take_out(&mut self, number: u64)
        ensures { self.new ≡ taken_out number self.old }
    {
        if let Some(at) = place_in(&self.numbers, number) {
            remove_at(&mut self.numbers, at);
        }
    }
}
