//! A stack over slots that are handed over: no call allocates, and a full stack is an answer.
#![tactic(auto)]

ghost use Rattle.std.specs.Prelude.{◌≡◌, ◌-◌, ◌<◌, ◌≤◌, true, false, length, MatchOption, MatchResult};
ghost use Rattle.stack.specs.Entries.{Empty, Newest, Pushed, Refused, Reversed, TooFewSlots};

use std::error::Error;
use std::fmt;

/// Each slot holds an entry.
#[derive(Clone, Copy, PartialEq, Eq, Debug)]
pub struct Full;

impl fmt::Display for Full {
    fn fmt<W: fmt::Write>(&self, f: &mut fmt::Formatter<W>) -> fmt::Result {
        f.write_str("each slot holds an entry")
    }
}

impl Error for Full {}

/// The entries stand in the first `len` slots, the newest last.
#[derive(Drop)]
pub struct Stack<'a, T> {
    slots: &'a mut [T],
    len: usize,
    ghost fits: { len ≤ length slots.now },
}

impl<'a, T: Copy> Stack<'a, T> {
    /// An empty stack over the slots.
    pub fn new(slots: &'a mut [T]) -> Stack<'a, T>
        ensures starts_empty { result.len ≡ 0 }
        ensures same_slots { result.slots.ghost_name ≡ slots.entry.ghost_name }
        ensures no_slot_written { result.slots.now ≡ slots.old }
    {
        Stack { slots, len: 0 }
    }

    /// How many entries there are.
    pub fn len(&self) -> usize
        ensures { result ≡ self.now.len }
    {
        self.len
    }

    /// Whether there is no entry.
    pub fn is_empty(&self) -> bool
        ensures true_where_empty { result ≡ true → self.now.len ≡ 0 }
        ensures false_where_not { result ≡ false → 0 < self.now.len }
    {
        self.len == 0
    }

    /// Whether each slot holds an entry.
    pub fn is_full(&self) -> bool
        ensures true_where_full { result ≡ true → self.now.len ≡ length self.now.slots.now }
        ensures false_where_not { result ≡ false → self.now.len < length self.now.slots.now }
    {
        self.len == self.slots.len()
    }

    /// Makes `x` the newest entry, unless the stack is full.
    pub fn push(&mut self, x: T) -> Result<(), Full>
        ensures same_slots { self.new.slots.ghost_name ≡ self.old.slots.ghost_name }
        ensures pushed_or_full { MatchResult result (λ _. Pushed self.old.slots.now self.old.len x self.new.slots.now self.new.len) (λ _. Refused self.old.slots.now self.old.len self.new.slots.now self.new.len) }
    {
        if self.is_full() {
            return Err(Full);
        }
        self.slots[self.len] = x;
        self.len += 1;
        Ok(())
    }

    /// Takes the newest entry off; no slot is written.
    pub fn pop(&mut self) -> Option<T>
        ensures same_slots { self.new.slots.ghost_name ≡ self.old.slots.ghost_name }
        ensures no_slot_written { self.new.slots.now ≡ self.old.slots.now }
        ensures popped_or_empty { MatchOption result (Empty self.old.len self.new.len) (λ x. Newest self.old.slots.now self.old.len x self.new.len) }
    {
        let x = self.top()?;
        self.len -= 1;
        Some(x)
    }

    /// The newest entry, which stays.
    pub fn top(&self) -> Option<T>
        ensures { MatchOption result (self.now.len ≡ 0) (λ x. Newest self.now.slots.now self.now.len x (self.now.len - 1)) }
    {
        self.slots[..self.len].last().copied()
    }
}

/// Reverses the items by a stack over the slots: what is pushed last is popped first.
pub fn reverse_by_stack<T: Copy>(slots: &mut [T], items: &mut [T]) -> Result<(), Full>
    ensures { MatchResult result (λ _. Reversed slots.old slots.new items.old items.new) (λ _. TooFewSlots slots.old items.old items.new) }
{
    let mut stack = Stack::new(slots);
    for x in items.iter() {
        stack.push(*x)?;
    }
    for item in items.iter_mut() {
        *item = stack.pop().unwrap();
    }
    Ok(())
}
