//! The mesh of a file, read at the shift of a geometry.

ghost use Rattle.std.specs.Prelude.{IfOk, IfErr};
ghost use Rattle.mesh_check.specs.Parts.{NamesItsPoints};
ghost use Rattle.netmesh_cli.specs.Accepted.{IsMeshText};
ghost use Rattle.netmesh_cli.specs.Kinds.{VolRejects};
ghost use Rattle.netmesh_cli.specs.BytesRefused.{MayRefuse};

use super::Refusal;
use geom_check::Geometry;
use std::alloc::Global;
use vol_format::{Mesh, VolRefusal, read_vol};

/// Reads a mesh at a shift.
pub fn read_mesh(alloc: Global, bytes: &[u8], geometry: &Geometry) -> Result<Mesh, Refusal>
    ensures read { IfOk result (IsMeshText geometry.now.shift bytes.now) }
    ensures names { IfOk result NamesItsPoints }
    ensures refused { IfErr result (MayRefuse (VolRejects geometry.now.shift bytes.now)) }
{
    match read_vol(alloc, bytes, geometry.shift()) {
        Ok(mesh) => Ok(mesh),
        Err(VolRefusal::Memory) => Err(Refusal::Memory),
        Err(fault) => Err(Refusal::Vol(fault)),
    }
}
