//! The log of a file: it is taken and read, and a state of it is made.

ghost use Rattle.std.specs.Prelude.{◌≡◌, ◌≤◌, IfOk, IfErr};
ghost use Rattle.folder_io.specs.Causes.{Told};
ghost use Rattle.run_log.specs.View.{AreRising, Shows};
ghost use Rattle.netmesh_cli.specs.Accepted.{IsLogText, IsState};
ghost use Rattle.netmesh_cli.specs.Held.{HoldsState};
ghost use Rattle.netmesh_cli.specs.Kinds.{StateRejects};
ghost use Rattle.netmesh_cli.specs.Taking.{TakeRefused, state_log_at};
ghost use Rattle.netmesh_cli.specs.BytesRefused.{LogRefused, ViewRefused, MayRefuse};

use super::{RUN_FILE_LIMIT, Refusal, files};
use folder_io::Folder;
use run_log::{Log, LogRefusal, View, read_log, view};
use std::alloc::Global;

/// Reads a log.
fn read_file(alloc: Global, bytes: &[u8]) -> Result<Log, Refusal>
    ensures read { IfOk result (IsLogText bytes.now) }
    ensures rising { IfOk result (λ log. AreRising log.domains) }
    ensures refused { IfErr result (LogRefused bytes.now) }
{
    match read_log(alloc, bytes) {
        Ok(log) => Ok(log),
        Err(LogRefusal::Memory) => Err(Refusal::Memory),
        Err(fault) => Err(Refusal::Log(fault)),
    }
}

/// The state of a log after a step of a domain's run.
fn state_of(alloc: Global, log: &Log, domain: u32, step: u64) -> Result<View, Refusal>
    requires { AreRising log.now.domains }
    ensures shown { IfOk result (Shows log.now domain step) }
    ensures refused { IfErr result (ViewRefused log.now domain step) }
{
    match view(alloc, log, domain, step) {
        Ok(state) => Ok(state),
        Err(LogRefusal::Memory) => Err(Refusal::Memory),
        Err(fault) => Err(Refusal::Log(fault)),
    }
}

/// The state that the text of a log has after a step of a domain's run.
fn read_state(alloc: Global, bytes: &[u8], domain: u32, step: u64) -> Result<View, Refusal>
    ensures state { IfOk result (IsState domain step bytes.now) }
    ensures refused { IfErr result (MayRefuse (StateRejects domain step bytes.now)) }
{
    let log = read_file(alloc, bytes)?;
    let state = state_of(alloc, &log, domain, step)?;
    Ok(state)
}

/// Takes a log, and gives its state after a step of a domain's run.
pub fn take_state<F: Folder>(
    alloc: Global,
    folder: &mut F,
    name: &str,
    domain: u32,
    step: u64,
) -> Result<View, Refusal>
    ensures held { (F.state folder.new).held ≡ (F.state folder.old).held }
    ensures state { IfOk result (λ view. Told (F.state folder.old).held
        (λ files. HoldsState files name.now domain step view)) }
    ensures refused { IfErr result (λ refusal. TakeRefused
        (F.state folder.old) (F.state folder.new) refusal
        (state_log_at domain step name.now)) }
    ensures rises { (F.state folder.old).faults ≤ (F.state folder.new).faults }
{
    let bytes = files::take(alloc, folder, name, RUN_FILE_LIMIT)?;
    read_state(alloc, &bytes, domain, step)
}
