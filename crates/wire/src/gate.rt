// What each rank enters before it steps.

/// What each rank enters, by its number, before it steps. A gate may hold a rank until others are
/// in; it tells nothing, and `enter` returns.
pub trait Gate: Sync {
    fn enter(&self, rank: u32);
}

/// A gate that holds nobody.
#[derive(Clone, Copy, Debug)]
pub struct OpenGate;

impl Gate for OpenGate {
    fn enter(&self, _rank: u32) {}
}
