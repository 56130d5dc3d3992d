// The digits of a box's coordinates.

use super::Key;
use grid_geom::Bounds;

const COORDINATES: u32 = 4;

const PLACES: u32 = COORDINATES * u64::BITS;

/// The digits to base 2 of a box and its key, in one row: the first digits of the four coordinates
/// lo.x, lo.y, hi.x, hi.y, then their second ones and so on, and then those of the key. So two
/// entries of one box differ too.
#[derive(Clone, Copy)]
pub struct Digits {
    coordinates: [u64; 4],
    slot: u64,
}

impl Digits {
    pub fn of(key: Key, bounds: &Bounds) -> Digits {
        Digits {
            coordinates: [
                shifted(bounds.lo.x),
                shifted(bounds.lo.y),
                shifted(bounds.hi.x),
                shifted(bounds.hi.y),
            ],
            slot: key.slot as u64,
        }
    }

    /// The first place in the row at which the two differ.
    pub fn first_difference(&self, other: &Digits) -> u32 {
        let mut first = PLACES;
        for i in 0..4usize {
            let equal = (self.coordinates[i] ^ other.coordinates[i]).leading_zeros();
            first = first.min(COORDINATES * equal + i as u32);
        }
        if first < PLACES {
            first
        } else {
            PLACES + (self.slot ^ other.slot).leading_zeros()
        }
    }

    /// Whether the digit at this place of the row is 1.
    pub fn is_high(&self, place: u32) -> bool {
        if place < PLACES {
            let coordinate = self.coordinates[(place % COORDINATES) as usize];
            is_first_high(coordinate.rotate_left(place / COORDINATES))
        } else {
            is_first_high(self.slot.rotate_left(place - PLACES))
        }
    }
}

/// The coordinate, counted from the least one on, so that its order is that of its digits.
fn shifted(coordinate: i64) -> u64 {
    coordinate.wrapping_add(i64::MIN).cast_unsigned()
}

fn is_first_high(digits: u64) -> bool {
    digits.leading_zeros() == 0
}
