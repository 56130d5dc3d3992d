// The gate that each domain's worker passes before its work.

/// What a worker does before it takes up a domain. A run is the same whatever it does.
pub trait Gate {
    /// Called before the domain with this number is taken up.
    fn enter(&self, domain: u32);
}

/// The gate that does nothing.
#[derive(Clone, Copy, Debug, PartialEq, Eq)]
pub struct NoGate;

impl Gate for NoGate {
    fn enter(&self, _domain: u32) {}
}
