//! What may be wrong with descriptors.

/// The first fault from left to right, most with the place of the descriptor that has it, or want of memory.
#[derive(Clone, Copy, Debug, PartialEq)]
pub enum DescFault {
    /// Fewer bytes are left than a length and a type, or than the length. Of the first descriptor it has the number of
    /// bytes, not the place.
    Short(usize),
    /// The length is below that of the type. A device has 18 bytes, and what follows them is at 18.
    BadLength(usize),
    /// The first descriptor has another type than asked.
    BadType(usize),
    /// The total length in the descriptor, and the number of bytes that there are.
    TotalLength(u16, usize),
    /// An endpoint comes before the first interface.
    EndpointWithoutInterface(usize),
    /// An endpoint before it in the same setting has its address.
    TwiceEndpoint(usize),
    /// The 65th setting, or the 31st endpoint of one.
    Limit(usize),
    Memory,
}
