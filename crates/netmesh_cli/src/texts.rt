//! From a run to the bytes that are put and written of it.

ghost use Rattle.std.specs.Prelude.{◌≡◌, IfOk};
ghost use Rattle.rule_reader.specs.Normal.{CanPrint};
ghost use Rattle.netmesh_cli.specs.Run.{input_of, IsRunOf, log_of, line_of};
ghost use Rattle.netmesh_cli.specs.Run.{mesh_of as mesh_text_of};

use super::run::Input;
use mesh_run::{WholeRun, mesh_of};
use run_log::{write_log, write_summary};
use std::alloc::{AllocError, Global};
use vol_format::write_vol;

/// The texts of a run.
#[derive(Debug, Drop)]
pub struct Texts {
    pub log: Vec<u8>,
    pub mesh: Vec<u8>,
    pub line: Vec<u8>,
}

/// The texts of the run of what is accepted.
pub fn texts_of(alloc: Global, input: &Input, run: &WholeRun) -> Result<Texts, AllocError>
    requires rules { CanPrint input.now.rules.now }
    requires run { IsRunOf (input_of input.now) run.now }
    ensures log { IfOk result (λ t. t.log.items ≡ log_of run.now) }
    ensures mesh { IfOk result (λ t. t.mesh.items ≡ mesh_text_of (input_of input.now) run.now) }
    ensures line { IfOk result (λ t. t.line.items ≡ line_of (input_of input.now) run.now) }
{
    let mesh = mesh_of(alloc, run, input.geometry.segments())?;
    let line = write_summary(alloc, run, &mesh)?;
    Ok(Texts {
        log: write_log(alloc, run)?,
        mesh: write_vol(alloc, &mesh)?,
        line,
    })
}
