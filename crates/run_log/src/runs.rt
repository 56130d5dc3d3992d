//! The runs of domains in a log.

ghost use Rattle.std.specs.Prelude.{◌≡◌, ◌<◌, ◌≤◌, ◌+◌, IfOk, length};
ghost use Rattle.run_log.specs.Grammar.{domain_run, domains, front_line};
ghost use Rattle.run_log.specs.Form.{many};
ghost use Rattle.run_log.specs.Reading.{Gives, read};
ghost use Rattle.run_log.specs.View.{AreRising};

use crate::applied::applications;
use crate::lists::{FrontLines, OpeningLines, OpeningPoints, many};
use crate::reader::Reader;
use crate::refusal::LogRefusal;
use crate::words::GREATEST_WHOLE;
use grid_geom::{Point, Points};
use mesh_run::{DomainRun, DomainRuns, FrontRows};
use std::alloc::Global;

/// The greatest number of a domain.
const LAST_DOMAIN: u64 = 64;

/// The front lines that are left, between these points.
fn front_lines(
    alloc: Global,
    reader: &mut Reader<'_>,
    count: u64,
    points: &[Point],
) -> Result<FrontRows, LogRefusal>
    ensures { Gives result reader.new
        (read (many count (front_line (length points.now))) reader.old) }
{
    let so_many = points.len() as u64;
    many::<FrontLines>(alloc, reader, count, so_many)
}

/// The run of a domain whose number is above this one.
#[tactic(auto, using(crate::proofs::Steps::domain_reads), unfolding(crate::proofs::Steps::domain_at))]
fn domain_run(alloc: Global, reader: &mut Reader<'_>, before: u32) -> Result<DomainRun, LogRefusal>
    ensures read { Gives result reader.new (read (domain_run before) reader.old) }
    ensures rises { IfOk result (λ run. (before < run.domain) × (run.domain ≤ 64)) }
{
    let domain = reader.number(u64::from(before) + 1, LAST_DOMAIN)? as u32;
    let points = reader.number(0, GREATEST_WHOLE)?;
    let lines = reader.number(0, GREATEST_WHOLE)?;
    let applied = reader.number(0, GREATEST_WHOLE)?;
    let left = reader.number(0, GREATEST_WHOLE)?;
    let end = reader.end()?;
    let mut all = many::<OpeningPoints>(alloc, reader, points, 0)?.into_vec();
    let opened = all.len();
    let lines = many::<OpeningLines>(alloc, reader, lines, points)?;
    let applications = applications(alloc, reader, applied, &mut all)?;
    let front = front_lines(alloc, reader, left, &all)?;
    Ok(DomainRun {
        domain,
        points: Points::from_vec(all),
        opened,
        lines,
        applications,
        front,
        end,
    })
}

/// The runs of domains by rising number, up to the word `end`.
pub fn domains(alloc: Global, reader: &mut Reader<'_>) -> Result<DomainRuns, LogRefusal>
    ensures read { Gives result reader.new (read (domains 65 0) reader.old) }
    ensures rising { IfOk result AreRising }
{
    let mut runs = Vec::new(alloc);
    let mut before = 0;
    while reader.others()? {
        let run = domain_run(alloc, reader, before)?;
        before = run.domain;
        runs.push(run)?;
    }
    Ok(DomainRuns::from_vec(runs))
}
