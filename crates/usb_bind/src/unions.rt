//! Which interface carries the data of an ACM interface.
ghost use Rattle.std.specs.Prelude.{◌≡◌, ◌<◌, max, length, drop, slice_index};
ghost use Rattle.usb_bind.specs.Needs.{is_union, union_in, union_in_ends, data_interface};

use usb_desc::{Alt, End};

/// The type of a class descriptor of an interface (CDC 1.2 §5.2.3).
const CLASS_INTERFACE: u8 = 0x24;

/// The subtype of a union descriptor.
const UNION: u8 = 0x06;

fn is_union(descriptor: &[u8]) -> bool
    ensures { result ≡ is_union descriptor.now }
{
    descriptor.len() >= 5
        && descriptor[0] >= 5
        && descriptor[1] == CLASS_INTERFACE
        && descriptor[2] == UNION
}

// What follows the first descriptor. Each byte belongs to a descriptor.
#[tactic(auto, using(crate::proofs::UnionWalk::drop_all))]
fn behind(bytes: &[u8]) -> &[u8]
    requires { 0 < length bytes.now }
    ensures shorter { length result.now < length bytes.now }
    ensures rest { result.now ≡ drop (max (slice_index bytes.now 0) 1) bytes.now }
{
    let len = (bytes[0] as usize).max(1);
    if len < bytes.len() {
        &bytes[len..]
    } else {
        &[]
    }
}

// What the first union of these descriptors names.
#[tactic(auto, using(crate::proofs::UnionWalk::union_after, crate::proofs::UnionWalk::union_here))]
fn union_in(extras: &[u8]) -> Option<u8>
    ensures { result ≡ union_in 0 extras.now }
{
    let mut rest = extras;
    while !rest.is_empty() {
        if is_union(rest) {
            return Some(rest[4]);
        }
        rest = behind(rest);
    }
    None
}

#[tactic(auto, using(crate::proofs::UnionWalk::ends_next))]
fn union_in_ends(ends: &[End]) -> Option<u8>
    ensures { result ≡ union_in_ends ends.now }
{
    for end in ends {
        if let Some(number) = union_in(end.extras.bytes()) {
            return Some(number);
        }
    }
    None
}

/// The number of the data interface. The one after 255 is none.
pub(crate) fn data_interface(alt: &Alt) -> u16
    ensures { result ≡ data_interface alt.now }
{
    if let Some(number) = union_in(alt.extras.bytes()) {
        return number as u16;
    }
    match union_in_ends(alt.ends.items()) {
        Some(number) => number as u16,
        None => alt.number as u16 + 1,
    }
}
