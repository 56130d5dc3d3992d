//! The verb `check`: takes a geometry and a mesh, and says whether the mesh is whole for the geometry, or its
//! first fault.

ghost use Rattle.std.specs.Prelude.{◌≡◌, ◌≤◌, [], IfOk, IfErr};
ghost use Rattle.folder_io.specs.Causes.{Told};
ghost use Rattle.netmesh_cli.specs.Judged.{verdict_row, verdict_line, judged};
ghost use Rattle.netmesh_cli.specs.Jobs.{CheckJob, IsChecked, IsVerdictOutcome, made_of};
ghost use Rattle.netmesh_cli.specs.Served.{MakeRefused};

use super::geometry::take_geometry;
use super::made::Made;
use super::mesh_file::read_mesh;
use super::{Outcome, RUN_FILE_LIMIT, Refusal, files};
use folder_io::Folder;
use mesh_check::{Verdict, check_mesh};
use std::alloc::{AllocError, Global};
use text_rows::write_spaced_wide;

/// Words, and numbers behind them, each after one space.
fn verdict_row(alloc: Global, words: &str, numbers: &[i128]) -> Result<Vec<u8>, AllocError>
    ensures { IfOk result (λ line. line.items ≡ verdict_row words.now numbers.now) }
{
    let mut text = String::new(alloc);
    text.push_str(words)?;
    write_spaced_wide(&mut text, numbers)?;
    text.push_str("\n")?;
    Ok(text.into_bytes())
}

/// The line of a verdict on a mesh of so many elements.
fn verdict_line(alloc: Global, elements: usize, verdict: &Verdict) -> Result<Vec<u8>, AllocError>
    ensures { IfOk result (λ line. line.items ≡ verdict_line elements verdict.now) }
{
    match verdict {
        Verdict::Whole => verdict_row(alloc, "whole elements", &[elements as i128]),
        Verdict::SamePlace { i, j } => {
            verdict_row(alloc, "bad same-place", &[*i as i128, *j as i128])
        }
        Verdict::Edges { row } => verdict_row(alloc, "bad edges", &[*row as i128]),
        Verdict::Domain { element } => verdict_row(alloc, "bad domain", &[*element as i128]),
        Verdict::Turned { element } => verdict_row(alloc, "bad turned", &[*element as i128]),
        Verdict::Hanging { point, element } => {
            verdict_row(alloc, "bad hanging", &[*point as i128, *element as i128])
        }
        Verdict::Chain {
            domain,
            from,
            to,
            elements,
            edges,
        } => verdict_row(
            alloc,
            "bad chain",
            &[
                *domain as i128,
                *from as i128,
                *to as i128,
                *elements as i128,
                *edges as i128,
            ],
        ),
    }
}

/// The outcome of a verdict.
fn judged(verdict: &Verdict) -> Outcome
    ensures outcome { result ≡ judged verdict.now }
    ensures ending { IsVerdictOutcome result }
{
    match verdict {
        Verdict::Whole => Outcome::Good,
        _ => Outcome::Bad,
    }
}

/// What `check` makes of the geometry and the mesh that it takes: the line of its verdict, and no file.
pub fn make_check<'a, F: Folder>(
    alloc: Global,
    geometry: &'a str,
    mesh: &'a str,
    folder: &mut F,
) -> Result<Made<'a>, Refusal>
    ensures held { (F.state folder.new).held ≡ (F.state folder.old).held }
    ensures made { IfOk result (λ made. Told (F.state folder.old).held
        (λ files. IsChecked geometry.entry.now mesh.entry.now files (made_of made))) }
    ensures puts { IfOk result (λ made. made.puts.items ≡ []) }
    ensures ending { IfOk result (λ made. IsVerdictOutcome made.outcome) }
    ensures refused { IfErr result (MakeRefused (CheckJob geometry.entry.now mesh.entry.now)
        (F.state folder.old) (F.state folder.new)) }
    ensures rises { (F.state folder.old).faults ≤ (F.state folder.new).faults }
{
    let read = take_geometry(alloc, folder, geometry)?;
    let bytes = files::take(alloc, folder, mesh, RUN_FILE_LIMIT)?;
    let mesh = read_mesh(alloc, &bytes, &read.geometry)?;
    let verdict = check_mesh(alloc, &read.geometry, &mesh)?;
    let answer = verdict_line(alloc, mesh.elements.as_slice().len(), &verdict)?;
    Ok(Made {
        puts: Vec::new(alloc),
        answer,
        outcome: judged(&verdict),
    })
}
