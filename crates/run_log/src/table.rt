//! The lines of a front that is glued by sides alone.

ghost use Rattle.std.specs.Prelude.{◌≡◌, ◌+◌, ◌∷◌, ◌++◌, [], false, drop, IfOk, IfSome, IfNone, IsTrue, OnOk, OnErr};
ghost use Rattle.state_law.specs.State.{glue_line, next_after};
ghost use Rattle.indexmap.specs.IndexMap.{get};
ghost use Rattle.run_log.specs.Table.{Lines, queued};
ghost use Rattle.run_log.specs.contracts.table.EndsPartialEq.TheImpl.{ghosts as ends};

use indexmap::IndexMap;
use std::alloc::{AllocError as OutOfMemory, Global};
use std::collections::VecDeque;
use std::marker::Model;

/// The ends of a line, by their numbers.
#[derive(Clone, Copy, Debug, PartialEq, Eq, Hash)]
pub struct Ends {
    pub from: u64,
    pub to: u64,
}

/// Takes the least number that is kept under these ends.
fn pop_least(kept: &mut IndexMap<Ends, VecDeque<u64>>, side: Ends) -> Option<u64>
    ensures least { IfSome result (λ n. queued (get ends.eq kept.old side) ≡ n ∷ queued (get ends.eq kept.new side)) }
    ensures none { IfNone result (queued (get ends.eq kept.old side) ≡ []) }
    ensures none_new { IfNone result (queued (get ends.eq kept.new side) ≡ []) }
    ensures others { (t : Ends) → ends.eq side t ≡ false
        → queued (get ends.eq kept.new t) ≡ queued (get ends.eq kept.old t) }
{
    match kept.get_mut(&side) {
        Some(numbers) => numbers.pop_front(),
        None => None,
    }
}

/// Whether a list without a number is kept under these ends.
fn is_spent(kept: &IndexMap<Ends, VecDeque<u64>>, side: Ends) -> bool
    ensures { IsTrue result → queued (get ends.eq kept.now side) ≡ [] }
{
    match kept.get(&side) {
        Some(numbers) => numbers.is_empty(),
        None => false,
    }
}

/// Gives the room back that these ends take, where no number is kept under them.
fn let_go(kept: &mut IndexMap<Ends, VecDeque<u64>>, side: Ends)
    ensures same { queued (get ends.eq kept.new side) ≡ queued (get ends.eq kept.old side) }
    ensures others { (t : Ends) → ends.eq side t ≡ false
        → queued (get ends.eq kept.new t) ≡ queued (get ends.eq kept.old t) }
{
    if is_spent(kept, side) {
        kept.swap_remove(&side);
    }
}

/// Takes the least number that is kept under these ends, and with the last one what room they took.
fn take_least(kept: &mut IndexMap<Ends, VecDeque<u64>>, side: Ends) -> Option<u64>
    ensures least { IfSome result (λ n. queued (get ends.eq kept.old side) ≡ n ∷ queued (get ends.eq kept.new side)) }
    ensures none { IfNone result (queued (get ends.eq kept.old side) ≡ []) }
    ensures none_new { IfNone result (queued (get ends.eq kept.new side) ≡ []) }
    ensures others { (t : Ends) → ends.eq side t ≡ false
        → queued (get ends.eq kept.new t) ≡ queued (get ends.eq kept.old t) }
{
    let least = pop_least(kept, side);
    let_go(kept, side);
    least
}

/// Keeps a number under these ends, behind those that are there.
fn keep(
    alloc: Global,
    kept: &mut IndexMap<Ends, VecDeque<u64>>,
    side: Ends,
    number: u64,
) -> Result<(), OutOfMemory>
    ensures kept { OnOk result (queued (get ends.eq kept.new side)
        ≡ queued (get ends.eq kept.old side) ++ number ∷ []) }
    ensures others { (t : Ends) → ends.eq side t ≡ false
        → queued (get ends.eq kept.new t) ≡ queued (get ends.eq kept.old t) }
    ensures failed { OnErr result (queued (get ends.eq kept.new side)
        ≡ queued (get ends.eq kept.old side)) }
{
    if let Some(numbers) = kept.get_mut(&side) {
        numbers.push_back(number)?;
        return Ok(());
    }
    let mut numbers = VecDeque::new(alloc);
    numbers.push_back(number)?;
    kept.insert(side, numbers)?;
    Ok(())
}

/// The lines of a front: each is found by its number, and its number by its ends. Of several lines with
/// the same ends the least number is found first.
#[derive(Drop)]
pub struct Table {
    // the lines by their numbers: nothing where a line has left
    made: Vec<Option<Ends>>,
    // the numbers of the lines that are there, by their ends, rising
    kept: IndexMap<Ends, VecDeque<u64>>,
}

impl Model for Table {
    ghost use Rattle.std.specs.Prelude.{◌+◌, length};
    ghost use Rattle.indexmap.specs.IndexMap.{get};
    ghost use Rattle.run_log.specs.Table.{Lines, lines_from, queued, AreKept};
    ghost use Rattle.run_log.specs.contracts.table.EndsPartialEq.TheImpl.{ghosts as ends};

    ghost Value = { Lines };

    ghost view = { λ t. record {
      lines = lines_from 1 t.made.items;
      next = 1 + length t.made.items;
    } };

    ghost invariant = { λ t. AreKept t.made.items (λ s. queued (get ends.eq t.kept s)) };
}

impl Table {
    /// No line.
    pub fn new(alloc: Global) -> Table
        ensures lines { result.lines ≡ [] }
        ensures next { result.next ≡ 1 }
    {
        Table {
            made: Vec::new(alloc),
            kept: IndexMap::new(alloc),
        }
    }

    /// A line with these ends joins, with the next number.
    pub fn join(&mut self, alloc: Global, ends: Ends) -> Result<(), OutOfMemory>
        ensures lines { OnOk result (self.new.lines ≡
            self.old.lines ++ (self.old.next, ends.from, ends.to) ∷ []) }
        ensures next { OnOk result (self.new.next ≡ self.old.next + 1) }
    {
        self.made.reserve(1)?;
        let number = self.made.len() as u64 + 1;
        keep(alloc, &mut self.kept, ends, number)?;
        self.made.push_reserved(Some(ends));
        Ok(())
    }

    /// Glues one side: of the lines with these ends that of the least number leaves, or else a line joins
    /// from its end to its start.
    pub fn glue_side(&mut self, alloc: Global, side: Ends) -> Result<(), OutOfMemory>
        ensures lines { OnOk result (self.new.lines ≡
            glue_line self.old.lines self.old.next (side.from, side.to)) }
        ensures next { OnOk result (self.new.next ≡
            next_after self.old.lines self.old.next (side.from, side.to)) }
    {
        match take_least(&mut self.kept, side) {
            Some(number) => {
                self.made[number as usize - 1] = None;
                Ok(())
            }
            None => {
                let back = Ends {
                    from: side.to,
                    to: side.from,
                };
                self.join(alloc, back)?;
                Ok(())
            }
        }
    }

    /// The lines in order of making: number, from, to.
    pub fn rows(&self, alloc: Global) -> Result<Vec<(u64, u64, u64)>, OutOfMemory>
        ensures { IfOk result (λ rows. rows.items ≡ self.now.lines) }
    {
        let mut rows = Vec::new(alloc);
        for place in 0..self.made.len() {
            if let Some(ends) = self.made[place] {
                rows.push((place as u64 + 1, ends.from, ends.to))?;
            }
        }
        Ok(rows)
    }
}
