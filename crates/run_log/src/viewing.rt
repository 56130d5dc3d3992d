//! A domain's front after some of its applications, as a log tells it.

ghost use Rattle.std.specs.Prelude.{◌≡◌, ◌⊎◌, ◌+◌, ◌≤◌, nat_eq, length, sum_by, IfOk, IfErr, OnOk, MatchResult};
ghost use Rattle.std.specs.List.{find, flat_map};
ghost use Rattle.std.specs.Option.{option_map};
ghost use Rattle.state_law.specs.State.{glue_lines, next_after_all, number_way, number_sides};
ghost use Rattle.front_chain.specs.Front.{numbered_from};
ghost use Rattle.run_log.specs.declared.refusal.LogRefusal.{LogRefusal};
ghost use Rattle.run_log.specs.declared.state.View.{View};
ghost use Rattle.run_log.specs.View.{view_of, viewed, AreRising, Shows, HasNoState};
ghost use Rattle.run_log.specs.Reading.{Answers};

use crate::log::Log;
use crate::refusal::LogRefusal;
use crate::state::View;
use crate::table::{Ends, Table};
use grid_geom::Element;
use mesh_run::{Application, DomainRun, FrontRows};
use std::alloc::{AllocError as OutOfMemory, Global};

/// The opening lines, numbered in their order.
fn opening(alloc: Global, lines: &[(u64, u64)]) -> Result<Table, OutOfMemory>
    ensures lines { IfOk result (λ table. table.lines ≡ numbered_from 1 lines.now) }
    ensures next { IfOk result (λ table. table.next ≡ 1 + length lines.now) }
{
    let mut table = Table::new(alloc);
    for line in lines {
        let ends = Ends {
            from: line.0,
            to: line.1,
        };
        table.join(alloc, ends)?;
    }
    Ok(table)
}

/// Glues the sides from `from` by the rest of the corners and on to `first`.
fn glue_way(
    alloc: Global,
    table: &mut Table,
    first: u64,
    from: u64,
    rest: &[u64],
) -> Result<(), OutOfMemory>
    ensures lines { OnOk result (table.new.lines ≡
        glue_lines table.old.lines table.old.next (number_way first from rest.now)) }
    ensures next { OnOk result (table.new.next ≡
        next_after_all table.old.lines table.old.next (number_way first from rest.now)) }
{
    match rest {
        [] => table.glue_side(alloc, Ends { from, to: first })?,
        [to, after @ ..] => {
            table.glue_side(alloc, Ends { from, to: *to })?;
            glue_way(alloc, table, first, *to, after)?;
        }
    }
    Ok(())
}

/// Glues the sides of an element, given by its corners' numbers.
fn glue_element(alloc: Global, table: &mut Table, corners: &[u64]) -> Result<(), OutOfMemory>
    ensures lines { OnOk result (table.new.lines ≡
        glue_lines table.old.lines table.old.next (number_sides corners.now)) }
    ensures next { OnOk result (table.new.next ≡
        next_after_all table.old.lines table.old.next (number_sides corners.now)) }
{
    match corners {
        [] => {}
        [first, rest @ ..] => glue_way(alloc, table, *first, *first, rest)?,
    }
    Ok(())
}

/// Glues elements one after another.
fn glue_elements(alloc: Global, table: &mut Table, elements: &[Element]) -> Result<(), OutOfMemory>
    ensures lines { OnOk result (table.new.lines ≡
        glue_lines table.old.lines table.old.next (flat_map number_sides elements.now)) }
    ensures next { OnOk result (table.new.next ≡
        next_after_all table.old.lines table.old.next (flat_map number_sides elements.now)) }
{
    for element in elements {
        glue_element(alloc, table, element.as_slice())?;
    }
    Ok(())
}

/// Glues the elements of applications one after another, and counts them. Elements that no number
/// could count are want of memory.
fn glue_applications(
    alloc: Global,
    table: &mut Table,
    applications: &[Application],
) -> Result<u64, OutOfMemory>
    ensures lines { OnOk result (table.new.lines ≡ glue_lines table.old.lines table.old.next
        (flat_map (λ a. flat_map number_sides a.elements) applications.now)) }
    ensures count { IfOk result (λ n. n ≡ sum_by (λ a. length a.elements) applications.now) }
{
    let mut count = 0u64;
    for application in applications {
        let elements = application.elements.as_slice();
        glue_elements(alloc, table, elements)?;
        let Some(more) = count.checked_add(elements.len() as u64) else {
            return Err(OutOfMemory);
        };
        count = more;
    }
    Ok(count)
}

/// What the run shows after its first `k` applications.
fn shown(alloc: Global, run: &DomainRun, k: usize) -> Result<View, OutOfMemory>
    requires { k ≤ length run.now.applications }
    ensures { IfOk result (λ view. view ≡ view_of run.now k) }
{
    let mut table = opening(alloc, run.lines.as_slice())?;
    let applications = run.applications.as_slice();
    let elements = glue_applications(alloc, &mut table, &applications[..k])?;
    Ok(View {
        elements,
        front: FrontRows::from_vec(table.rows(alloc)?),
    })
}

/// The run of this domain, if the log has one.
fn run_of(runs: &[DomainRun], domain: u32) -> Option<&DomainRun>
    ensures { option_map (λ run. run.now) result ≡ find (λ run. nat_eq run.domain domain) runs.now }
{
    runs.iter().find(|run| run.domain == domain)
}

/// What the domain's run shows after its first `k` applications, if the log has so much of it.
fn looked_up(alloc: Global, log: &Log, domain: u32, k: u64) -> Result<View, LogRefusal>
    ensures { Answers result (viewed (find (λ run. nat_eq run.domain domain) log.now.domains)
        domain k) }
{
    let none = LogRefusal::NoState { domain, step: k };
    let Some(run) = run_of(log.domains.as_slice(), domain) else {
        return Err(none);
    };
    if k > run.applications.as_slice().len() as u64 {
        return Err(none);
    }
    Ok(shown(alloc, run, k as usize)?)
}

/// A domain's front after the first `k` of its applications: the opening lines, to which the elements
/// are glued by their sides alone. A line with a side's ends leaves, of several that of the least
/// number; where there is none, the side joins reversed with the next number.
///
/// The condition is that the log's domain numbers rise, as they do in one that was read.
pub fn view(alloc: Global, log: &Log, domain: u32, k: u64) -> Result<View, LogRefusal>
    requires { AreRising log.now.domains }

    // What is shown is the front after k applications of the domain's run.
    ensures shown { IfOk result (λ view. Shows log.now domain k view) }

    // Where there is such a state it is shown, unless memory runs out, and nothing else is.
    ensures only { (view : View) → Shows log.now domain k view
        → MatchResult result (λ shown. shown ≡ view) (λ e. e ≡ LogRefusal.Memory) }

    // NoState comes exactly where there is none.
    ensures refused { IfErr result (λ e. (e ≡ LogRefusal.Memory)
        ⊎ ((e ≡ LogRefusal.NoState domain k) × HasNoState log.now domain k)) }
    ensures refused_only { HasNoState log.now domain k → MatchResult result (λ view. ⊥)
        (λ e. (e ≡ LogRefusal.NoState domain k) ⊎ (e ≡ LogRefusal.Memory)) }
{
    looked_up(alloc, log, domain, k)
}
