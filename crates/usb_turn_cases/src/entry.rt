//! The rows of a tally's history.

/// What a call did: what it added, and the total that it found.
#[derive(Clone, Copy)]
pub struct Made {
    pub add: u64,
    pub found: u64,
}

/// The call of a pass. No value of it is made.
pub struct Entry {
    pub by: u32,
    pub made: Made,
}
