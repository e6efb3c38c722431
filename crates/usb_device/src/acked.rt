//! What an address acknowledged.
ghost use Rattle.std.specs.Prelude.{◌≡◌, ◌++◌, [], ℕ, List, min};
ghost use Rattle.usb_device.specs.Acks.{kept, IsAcked};

// How many of the first bytes are kept.
const KEPT: usize = 64;

/// The bytes that an address acknowledged.
#[derive(Drop)]
pub struct Acked {
    /// How many bytes, at most `u64::MAX`.
    pub count: u64,
    /// The first 64 of them.
    pub first: [u8; 64],
}

impl Acked {
    /// No bytes.
    pub fn new() -> Acked
        ensures { IsAcked result [] }
    {
        Acked {
            count: 0,
            first: [0; 64],
        }
    }

    // How many bytes are kept.
    fn held(&self) -> usize
        ensures { result ≡ min self.now.count 64 }
    {
        self.count.min(KEPT as u64) as usize
    }

    /// The first 64 bytes, or all.
    pub fn kept(&self) -> &[u8]
        ensures { result.now ≡ kept self.now }
    {
        &self.first[..self.held()]
    }

    /// Adds bytes.
    pub fn add(&mut self, bytes: &[u8])
        ensures { (before : List ℕ) → IsAcked self.old before → IsAcked self.new (before ++ bytes.now) }
    {
        let held = self.held();
        let more = bytes.len().min(KEPT - held);
        self.first[held..held + more].copy_from_slice(&bytes[..more]);
        self.count = self.count.saturating_add(bytes.len() as u64);
    }
}
