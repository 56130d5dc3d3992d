// The lines of a front in order of making. They are found by number, and each has the numbers of the line before it and of the line after it: so what is kept is as long as the front, however many lines have left, and a walk meets no line that has left.
ghost use Rattle.std.specs.Prelude.{◌≡◌, ℕ, ◌+◌, ◌-◌, ◌<◌, ◌≤◌, ◌^◌, nat_eq, cond, List, [], ◌∷◌, ◌++◌, length, set, Some, None, true, OnOk, is_some};
ghost use Rattle.std.specs.Option.{option_map};
ghost use Rattle.indexmap.specs.IndexMap.{get, spare as room_of_map, IsUnique};
ghost use Rattle.front_chain.specs.Front.{line_at, number_above};
ghost use Rattle.front_chain.specs.Tables.{side_at, lines_from};
ghost use Rattle.front_chain.specs.Links.{followed_by, led_by};

use crate::side::Side;
use indexmap::IndexMap;
use std::alloc::{AllocError as OutOfMemory, Global};
use std::marker::Model;

/// A line's ends, and the numbers of the line before it and of the line after it, 0 where there is none.
#[derive(Clone, Copy, Debug, PartialEq, Eq)]
pub struct Link {
    pub side: Side,
    pub before: u64,
    pub after: u64,
}

/// The lines in order of making, numbered from 1.
#[derive(Drop)]
pub struct Order {
    // the lines that are there, by number
    links: IndexMap<u64, Link>,
    // how many numbers were given
    count: u64,
    // the least number of a line, and the greatest, 0 where there is none
    first: u64,
    last: u64,
}

impl Model for Order {
    ghost use Rattle.std.specs.Prelude.{ℕ, ◌-◌, ◌<◌, ◌^◌, min, nat_eq};
    ghost use Rattle.indexmap.specs.IndexMap.{get, spare as room_of_map, IsUnique};
    ghost use Rattle.front_chain.specs.Links.{OrderState, tabled, sides_in, AreLinked};

    ghost Value = { OrderState };

    ghost view = { λ o. record {
      made = tabled (sides_in (λ n. get nat_eq o.links n)) o.count;
      spare = min (room_of_map o.links) (2 ^ 64 - 2 - o.count);
    } };

    ghost invariant = { λ o. AreLinked (λ n. get nat_eq o.links n) o.count o.first o.last ×
        IsUnique nat_eq o.links × (o.count < 2 ^ 64 - 1) };
}

/// Notes which line comes after the one with number n, or which is the first where there is none.
fn set_after(links: &mut IndexMap<u64, Link>, first: &mut u64, n: u64, after: u64)
    ensures links { (q : ℕ) → get nat_eq links.new q ≡
        option_map (followed_by n after q) (get nat_eq links.old q) }
    ensures first { first.new ≡ cond (is_some (get nat_eq links.old n)) first.old after }
    ensures unique { IsUnique nat_eq links.new }
    ensures room { room_of_map links.new ≡ room_of_map links.old }
{
    match links.get_mut(&n) {
        Some(link) => link.after = after,
        None => *first = after,
    }
}

/// Notes which line comes before the one with number n, or which is the last where there is none.
fn set_before(links: &mut IndexMap<u64, Link>, last: &mut u64, n: u64, before: u64)
    ensures links { (q : ℕ) → get nat_eq links.new q ≡
        option_map (led_by n before q) (get nat_eq links.old q) }
    ensures last { last.new ≡ cond (is_some (get nat_eq links.old n)) last.old before }
    ensures unique { IsUnique nat_eq links.new }
    ensures room { room_of_map links.new ≡ room_of_map links.old }
{
    match links.get_mut(&n) {
        Some(link) => link.before = before,
        None => *last = before,
    }
}

/// The number, or nothing where it is 0.
fn if_any(n: u64) -> Option<u64>
    ensures { result ≡ cond (nat_eq n 0) None (Some n) }
{
    if n == 0 {
        return None;
    }
    Some(n)
}

impl Order {
    /// No line.
    pub fn new(alloc: Global) -> Order
        ensures { result.made ≡ [] }
    {
        Order {
            links: IndexMap::new(alloc),
            count: 0,
            first: 0,
            last: 0,
        }
    }

    /// How many lines were made.
    pub fn made(&self) -> u64
        ensures count { result ≡ length self.now.made }
        ensures small { result < 2 ^ 64 - 1 }
    {
        self.count
    }

    /// The ends of the line with this number, if it is there.
    pub fn line(&self, n: u64) -> Option<(u64, u64)>
        ensures { result ≡ line_at (lines_from 1 self.now.made) n }
    {
        self.links
            .get(&n)
            .map(|link| (link.side.from, link.side.to))
    }

    /// The least number of a line above this number, or 0 where there is none, by a walk from the first
    /// line on.
    fn first_above(&self, after: u64) -> u64
        ensures { cond (nat_eq result 0) None (Some result) ≡
            number_above (lines_from 1 self.now.made) after }
    {
        let mut n = self.first;
        while n != 0 && n <= after {
            n = self.links.get(&n).unwrap().after;
        }
        n
    }

    /// The least number of a line above this number: where that is the number of a line, in one look.
    pub fn next_line(&self, after: u64) -> Option<u64>
        ensures { result ≡ number_above (lines_from 1 self.now.made) after }
    {
        match self.links.get(&after) {
            Some(link) => if_any(link.after),
            None => if_any(self.first_above(after)),
        }
    }

    /// A line with these ends joins, with the next number.
    pub fn push(&mut self, side: Side)
        requires { 0 < self.old.spare }
        ensures made { self.new.made ≡ self.old.made ++ Some side ∷ [] }
        ensures spare { self.old.spare ≤ self.new.spare + 1 }
    {
        let number = self.count + 1;
        let before = self.last;
        set_after(&mut self.links, &mut self.first, before, number);
        let link = Link {
            side,
            before,
            after: 0,
        };
        self.links.insert(number, link).unwrap();
        self.last = number;
        self.count = number;
    }

    /// The line with this number leaves.
    pub fn take_off(&mut self, n: u64)
        requires positive { 1 ≤ n }
        requires there { is_some (side_at self.old.made (n - 1)) ≡ true }
        ensures made { self.new.made ≡ set self.old.made (n - 1) None }
        ensures spare { self.old.spare ≤ self.new.spare }
    {
        let link = self.links.swap_remove(&n).unwrap();
        set_after(&mut self.links, &mut self.first, link.before, link.after);
        set_before(&mut self.links, &mut self.last, link.after, link.before);
    }

    /// Takes memory for so many more lines. Lines that no number could count are want of memory too.
    pub fn reserve(&mut self, lines: usize) -> Result<(), OutOfMemory>
        ensures made { self.new.made ≡ self.old.made }
        ensures room { OnOk result (lines ≤ self.new.spare) }
        ensures spare { self.old.spare ≤ self.new.spare }
    {
        if lines as u64 > u64::MAX - 1 - self.count {
            return Err(OutOfMemory);
        }
        self.links.reserve(lines)
    }
}
