// Why a geometry is refused.
ghost use Rattle.std.specs.Prelude.{◌≡◌};
ghost use Rattle.geom_check.specs.declared.refusal.GeomRefusal.TheVariants.{Memory as NoMemory};

use grid_geom::RatPoint;
use std::alloc::AllocError;

/// The first fault of a geometry, in the order of these variants. Rows, segments and domains are
/// numbered from 1.
#[derive(Clone, Copy, Debug, PartialEq, Eq)]
pub enum GeomRefusal {
    /// No segment names a domain above 0.
    NoDomain,
    /// The least point row with a coordinate too large for the coarsest shift.
    TooLarge { point: u64 },
    /// The least pair of point rows at one place.
    SamePlace { i: u64, j: u64 },
    /// The least segment with one domain on both sides.
    SameSides { segment: u64 },
    /// The least segment with one point at both ends.
    NoLength { segment: u64 },
    /// The least pair of segments that share more than a common end.
    Meet { i: u64, j: u64 },
    /// The least domain whose boundary isn't closed, and the least point row at which it is open.
    OpenAt { point: u64, domain: u64 },
    /// The least domain with a winding number other than 0 and 1, and a place where it has that.
    Side { domain: u64, at: RatPoint },
    /// A place where two domains have the winding number 1.
    Overlap { at: RatPoint },
    /// No memory was left.
    Memory,
}

impl From<AllocError> for GeomRefusal {
    ghost from_gives = { λ _ e. e ≡ NoMemory };

    fn from(_e: AllocError) -> GeomRefusal {
        GeomRefusal::Memory
    }
}
