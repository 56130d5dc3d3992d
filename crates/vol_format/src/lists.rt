//! The lists of a mesh.

use super::{EdgeRow, MeshElement};
use list_of::List;

/// The edge rows of a mesh.
pub type EdgeRows = List<EdgeRow>;

/// The elements of a mesh.
pub type MeshElements = List<MeshElement>;
