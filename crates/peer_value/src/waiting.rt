//! The values that wait until another one of their group may be under way.
//!
//! It stands on the value of each (`UnderWay`). It promises that those of a group come out in the order in which they came in.
ghost use Rattle.std.specs.Prelude.{◌≡◌, ◌≢◌, ◌≤◌, ◌-◌, ◌^◌, ℕ, [], ◌∷◌, ◌++◌, length, min};
ghost use Rattle.std.specs.Prelude.{IfErr, IfNone, IfSome, MatchOption, OnOk, option_map, slice_get};
ghost use Rattle.peer_value.specs.UnderWays.{due_of};
ghost use Rattle.peer_value.specs.Waitings.{IsRefused, count_of, line_of};

use crate::done::Done;
use crate::under_way::UnderWay;
use peer_origin::FetchFault;
use peer_source::Source;
use std::alloc::{AllocError, Global};
use std::collections::VecDeque;
use std::time::Duration;

/// The values that wait.
#[derive(Drop)]
pub struct Waiting<'a, S: Source> {
    alloc: Global,
    // Of each group, by its number, those that wait, the one that waits longest first.
    lines: Vec<VecDeque<UnderWay<'a, S>>>,
}

impl<'a, S: Source> Waiting<'a, S> {
    /// None waits.
    pub fn new(alloc: Global) -> Waiting<'a, S>
        ensures { (n : ℕ) → line_of result n ≡ [] }
    {
        Waiting {
            alloc,
            lines: Vec::new(alloc),
        }
    }

    /// How many wait, 2^64 - 1 at most.
    pub fn count(&self) -> usize
        ensures { result ≡ min (count_of self.now) (2 ^ 64 - 1) }
    {
        let mut count = 0usize;
        for line in &self.lines {
            count = count.saturating_add(line.len());
        }
        count
    }

    /// How many wait for this group.
    pub fn count_of(&self, group: usize) -> usize
        ensures { result ≡ length (line_of self.now group) }
    {
        match self.lines.get(group) {
            Some(line) => line.len(),
            None => 0,
        }
    }

    /// The number above those of all groups for which one may wait.
    pub fn lines(&self) -> usize
        ensures { (n : ℕ) → result ≤ n → line_of self.now n ≡ [] }
    {
        self.lines.len()
    }

    /// When the first that waits for this group is to be given up.
    pub fn due(&self, group: usize) -> Option<Duration>
        ensures { result ≡ option_map due_of (slice_get (line_of self.now group) 0) }
    {
        let first = self.lines.get(group)?.front()?;
        Some(first.due())
    }

    // Has lines for groups with numbers below this.
    fn reserve_lines(&mut self, lines: usize) -> Result<(), AllocError>
        ensures { (n : ℕ) → line_of self.new n ≡ line_of self.old n }
    {
        for _ in self.lines.len()..lines {
            self.lines.push(VecDeque::new(self.alloc))?;
        }
        Ok(())
    }

    // Puts a value behind those that wait for its group. Where memory is refused it is given back.
    fn put(&mut self, group: usize, under: UnderWay<'a, S>) -> Result<(), UnderWay<'a, S>>
        ensures put { OnOk result (line_of self.new group ≡ line_of self.old group ++ under.entry ∷ []) }
        ensures others { (n : ℕ) → n ≢ group → line_of self.new n ≡ line_of self.old n }
        ensures back { IfErr result (λ back. (back ≡ under.entry) × (line_of self.new group ≡ line_of self.old group)) }
    {
        if self.reserve_lines(group.saturating_add(1)).is_err() {
            return Err(under);
        }
        let Some(line) = self.lines.get_mut(group) else {
            return Err(under);
        };
        if line.reserve(1).is_err() {
            return Err(under);
        }
        line.push_back_reserved(under);
        Ok(())
    }

    /// Has a value wait behind the others of its group. Where memory is refused it is done, and the others wait on.
    pub fn push(&mut self, group: usize, under: UnderWay<'a, S>) -> Option<Done<'a, S>>
        ensures last { MatchOption result (line_of self.new group ≡ line_of self.old group ++ under.entry ∷ [])
            (λ d. IsRefused under.entry d × (line_of self.new group ≡ line_of self.old group)) }
        ensures others { (n : ℕ) → n ≢ group → line_of self.new n ≡ line_of self.old n }
    {
        match self.put(group, under) {
            Ok(()) => None,
            Err(under) => Some(under.done(Err(FetchFault::Memory))),
        }
    }

    /// Takes out the first that waits for this group.
    pub fn pop(&mut self, group: usize) -> Option<UnderWay<'a, S>>
        ensures first { IfSome result (λ under. line_of self.old group ≡ under ∷ line_of self.new group) }
        ensures none { IfNone result (line_of self.old group ≡ []) }
        ensures others { (n : ℕ) → n ≢ group → line_of self.new n ≡ line_of self.old n }
    {
        let under = self.lines.get_mut(group)?.pop_front()?;
        Some(under)
    }
}
