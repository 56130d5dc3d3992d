//! The verb `view`: takes a log, and shows the state of a domain after a step of its run.

ghost use Rattle.std.specs.Prelude.{◌≡◌, ◌≤◌, ◌++◌, [], IfOk, IfErr};
ghost use Rattle.std.specs.List.{flat_map};
ghost use Rattle.std.specs.Fmt.{decimal};
ghost use Rattle.text_rows.specs.Rows.{Appends};
ghost use Rattle.folder_io.specs.Causes.{Told};
ghost use Rattle.run_log.specs.Log.{front_row};
ghost use Rattle.netmesh_cli.specs.Viewed.{state_row, view_text};
ghost use Rattle.netmesh_cli.specs.Jobs.{ViewJob, IsViewed, IsShown, made_of};
ghost use Rattle.netmesh_cli.specs.Served.{MakeRefused};

use super::log_file::take_state;
use super::made::Made;
use super::{Outcome, Refusal};
use folder_io::Folder;
use run_log::View;
use std::alloc::{AllocError, Global};
use text_rows::{write_number, write_row};

/// Adds a count behind its name.
fn write_count(text: &mut String, name: &str, count: u64) -> Result<(), AllocError>
    ensures { Appends result text.old text.new (name.now ++ decimal count) }
{
    text.push_str(name)?;
    write_number(text, count)?;
    Ok(())
}

/// Adds the line of a state.
fn write_state(text: &mut String, domain: u64, step: u64, state: &View) -> Result<(), AllocError>
    ensures { Appends result text.old text.new (state_row domain step state.now) }
{
    write_count(text, "domain ", domain)?;
    write_count(text, " step ", step)?;
    write_count(text, " front ", state.front.as_slice().len() as u64)?;
    write_count(text, " elements ", state.elements)?;
    text.push_str("\n")?;
    Ok(())
}

/// Adds a line for each front line.
fn write_front(text: &mut String, lines: &[(u64, u64, u64)]) -> Result<(), AllocError>
    ensures { Appends result text.old text.new (flat_map front_row lines.now) }
{
    for line in lines {
        write_row(text, "f", &[line.0, line.1, line.2], &[])?;
    }
    Ok(())
}

/// The text of a state.
fn view_text(alloc: Global, domain: u64, step: u64, state: &View) -> Result<Vec<u8>, AllocError>
    ensures { IfOk result (λ text. text.items ≡ view_text domain step state.now) }
{
    let mut text = String::new(alloc);
    write_state(&mut text, domain, step, state)?;
    write_front(&mut text, state.front.as_slice())?;
    Ok(text.into_bytes())
}

/// What `view` makes of the log that it takes: the text of the state, and no file.
pub fn make_view<'a, F: Folder>(
    alloc: Global,
    log: &'a str,
    domain: u64,
    step: u64,
    folder: &mut F,
) -> Result<Made<'a>, Refusal>
    requires { domain ≤ 64 }
    ensures held { (F.state folder.new).held ≡ (F.state folder.old).held }
    ensures made { IfOk result (λ made. Told (F.state folder.old).held
        (λ files. IsViewed log.entry.now domain step files (made_of made))) }
    ensures puts { IfOk result (λ made. made.puts.items ≡ []) }
    ensures ending { IfOk result (λ made. IsShown made.outcome) }
    ensures refused { IfErr result (MakeRefused (ViewJob log.entry.now domain step)
        (F.state folder.old) (F.state folder.new)) }
    ensures rises { (F.state folder.old).faults ≤ (F.state folder.new).faults }
{
    let state = take_state(alloc, folder, log, domain as u32, step)?;
    let answer = view_text(alloc, domain, step, &state)?;
    Ok(Made {
        puts: Vec::new(alloc),
        answer,
        outcome: Outcome::Shown,
    })
}
