//! Reading a mesh.

ghost use Rattle.std.specs.Prelude.{◌≡◌, ◌≢◌, ◌⊎◌, IfOk, IfErr, MatchResult};
ghost use Rattle.word_scan.specs.Scan.{words_of};
ghost use Rattle.vol_format.specs.declared.Mesh.{Mesh};
ghost use Rattle.vol_format.specs.declared.refusal.VolRefusal.{VolRefusal};
ghost use Rattle.vol_format.specs.Vol.{IsShift};
ghost use Rattle.vol_format.specs.Text.{Derives, Known};
ghost use Rattle.vol_format.specs.Refusals.{Refuses};
ghost use Rattle.vol_format.specs.Reading.{mesh_at, mesh_of, GivesAt, Gives};

use crate::reader::Reader;
use crate::refusal::VolRefusal;
use crate::{EdgeRows, Mesh, MeshElements, indices, places_of, rows};
use grid_geom::Points;
use std::alloc::Global;

/// The mesh that a text is of, for a geometry that was moved to the grid by the shift, or the refusal at the
/// text's first word that doesn't fit. White space and comments are as [`word_scan`] has them; a coordinate is
/// told exactly, and one off the grid is no number here.
pub fn read_vol(alloc: Global, bytes: &[u8], shift: i32) -> Result<Mesh, VolRefusal>
    requires { IsShift shift }
    // What is read is the mesh of the text, and its point numbers are known.
    ensures found { IfOk result (λ m. Derives shift (words_of bytes.now) m × Known m) }

    // Each such text is read, unless memory runs out, and has no other mesh.
    ensures only { (m : Mesh) → Derives shift (words_of bytes.now) m → Known m
        → MatchResult result (λ read. read ≡ m) (λ e. e ≡ VolRefusal.Memory) }

    // A refusal stands at the first word that doesn't fit, and its kind says what was wanted there; or at the
    // first point number of a whole text that names no point.
    ensures refused { IfErr result (Refuses shift (words_of bytes.now)) }

    // Each text that is refused so is refused, unless memory runs out, and has no other refusal.
    ensures refused_only { (f : VolRefusal) → f ≢ VolRefusal.Memory
        → Refuses shift (words_of bytes.now) f
        → MatchResult result (λ read. ⊥) (λ e. (e ≡ f) ⊎ (e ≡ VolRefusal.Memory)) }

    // What is returned is what reading word by word gives.
    ensures exact { Gives (λ m. m) result (mesh_of shift (words_of bytes.now)) }
{
    read(alloc, bytes, &shift)
}

/// The mesh that comes next.
#[tactic(auto, unfolding(crate::specs::Reading::mesh_at))]
fn mesh(alloc: Global, reader: &mut Reader<'_>, shift: &i32) -> Result<Mesh, VolRefusal>
    ensures { GivesAt (λ m. m) result reader.new (mesh_at shift.now reader.old) }
{
    let elements = rows::elements(alloc, reader)?;
    let edges = rows::edges(alloc, reader)?;
    let points = rows::points(alloc, reader)?;
    rows::ending(reader)?;
    Ok(Mesh {
        shift: *shift,
        points: Points::from_vec(points),
        edges: EdgeRows::from_vec(edges),
        elements: MeshElements::from_vec(elements),
    })
}

/// The mesh that the whole text is of.
#[tactic(auto, unfolding(crate::specs::Reading::mesh_of))]
fn read(alloc: Global, bytes: &[u8], shift: &i32) -> Result<Mesh, VolRefusal>
    requires { IsShift shift.now }
    ensures { Gives (λ m. m) result (mesh_of shift.now (words_of bytes.now)) }
{
    let mut reader = Reader::new(bytes, places_of(shift));
    let mesh = mesh(alloc, &mut reader, shift)?;
    reader.end()?;
    indices::known(&mesh)?;
    Ok(mesh)
}
