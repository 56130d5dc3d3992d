// A line by its ends.

/// The ends of a line, by their numbers.
#[derive(Clone, Copy, Debug, PartialEq, Eq, Hash)]
pub struct Side {
    pub from: u64,
    pub to: u64,
}
