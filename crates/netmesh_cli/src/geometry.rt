//! The geometry of a file: its text is read, checked, and moved to the grid.

ghost use Rattle.std.specs.Prelude.{◌≡◌, ◌≤◌, IfOk, IfErr};
ghost use Rattle.folder_io.specs.Causes.{Told};
ghost use Rattle.in2d_reader.specs.Normal.{CanPrint};
ghost use Rattle.geom_check.specs.Placed.{IsReadable};
ghost use Rattle.geom_check.specs.Geometry.{IsGeometryOf};
ghost use Rattle.netmesh_cli.specs.Accepted.{IsText, IsGeometryText};
ghost use Rattle.netmesh_cli.specs.Kinds.{GeometryRejects};
ghost use Rattle.netmesh_cli.specs.Taking.{TakeRefused, geometry_at};
ghost use Rattle.netmesh_cli.specs.Held.{HoldsGeometry};
ghost use Rattle.netmesh_cli.specs.BytesRefused.{ReadRefused, CheckRefused, MayRefuse};

use super::{FILE_LIMIT, Refusal, files};
use folder_io::Folder;
use geom_check::{GeomRefusal, Geometry, check};
use in2d_reader::{In2dRefusal, RawGeometry, read_in2d};
use std::alloc::Global;

/// A geometry by the rows of its text, and as it lies on the grid.
#[derive(Debug, Drop)]
pub struct ReadGeometry {
    pub rows: RawGeometry,
    pub geometry: Geometry,
}

/// Reads the text of a geometry.
fn read_text(alloc: Global, bytes: &[u8]) -> Result<RawGeometry, Refusal>
    ensures read { IfOk result (IsText bytes.now) }
    ensures printable { IfOk result CanPrint }
    ensures refused { IfErr result (ReadRefused bytes.now) }
{
    match read_in2d(alloc, bytes) {
        Ok(rows) => Ok(rows),
        Err(In2dRefusal::Memory) => Err(Refusal::Memory),
        Err(fault) => Err(Refusal::In2d(fault)),
    }
}

/// Checks a geometry, and moves it to the grid.
fn check_rows(alloc: Global, rows: &RawGeometry) -> Result<Geometry, Refusal>
    requires { IsReadable rows.now }
    ensures accepted { IfOk result (IsGeometryOf rows.now) }
    ensures refused { IfErr result (CheckRefused rows.now) }
{
    match check(alloc, rows) {
        Ok(geometry) => Ok(geometry),
        Err(GeomRefusal::Memory) => Err(Refusal::Memory),
        Err(fault) => Err(Refusal::Geometry(fault)),
    }
}

/// The geometry that a text writes, and its place on the grid.
fn read_geometry(alloc: Global, bytes: &[u8]) -> Result<ReadGeometry, Refusal>
    ensures accepted { IfOk result (λ read. IsGeometryText bytes.now read.rows read.geometry) }
    ensures printable { IfOk result (λ read. CanPrint read.rows) }
    ensures refused { IfErr result (MayRefuse (GeometryRejects bytes.now)) }
{
    let rows = read_text(alloc, bytes)?;
    let geometry = check_rows(alloc, &rows)?;
    Ok(ReadGeometry { rows, geometry })
}

/// Takes the file of a geometry and reads it.
pub fn take_geometry<F: Folder>(
    alloc: Global,
    folder: &mut F,
    name: &str,
) -> Result<ReadGeometry, Refusal>
    ensures held { (F.state folder.new).held ≡ (F.state folder.old).held }
    ensures accepted { IfOk result (λ read. Told (F.state folder.old).held
        (λ files. HoldsGeometry files name.now read.rows read.geometry)) }
    ensures printable { IfOk result (λ read. CanPrint read.rows) }
    ensures refused { IfErr result (λ refusal. TakeRefused
        (F.state folder.old) (F.state folder.new) refusal (geometry_at name.now)) }
    ensures rises { (F.state folder.old).faults ≤ (F.state folder.new).faults }
{
    let bytes = files::take(alloc, folder, name, FILE_LIMIT)?;
    read_geometry(alloc, &bytes)
}
