//! Where a descriptor ends.
ghost use Rattle.std.specs.Prelude.{◌≡◌, ◌+◌, ◌≤◌, length, IfOk, slice_index};
ghost use Rattle.usb_desc.specs.Cut.{standard_length, cut, Gives};

use crate::fault::DescFault;
use crate::kind::standard_length;

/// The first descriptor and the bytes after it. `at` is its place, and `short` what is reported where bytes are missing.
pub fn split_first(bytes: &[u8], short: usize, at: usize) -> Result<(&[u8], &[u8]), DescFault>
    ensures exact { Gives (λ x. (x.0.now, x.1.now)) result (cut short at bytes.now) }
    ensures header { IfOk result (λ x. 2 ≤ length x.0.now) }
    ensures whole { IfOk result (λ x. slice_index x.0.now 0 ≡ length x.0.now) }
    ensures long { IfOk result (λ x. standard_length (slice_index x.0.now 1) ≤ length x.0.now) }
    ensures all { IfOk result (λ x. length x.0.now + length x.1.now ≡ length bytes.now) }
{
    if bytes.len() < 2 {
        return Err(DescFault::Short(short));
    }
    let len = bytes[0];
    if bytes.len() < len as usize {
        return Err(DescFault::Short(short));
    }
    if len < standard_length(bytes[1]) {
        return Err(DescFault::BadLength(at));
    }
    Ok(bytes.split_at(len as usize))
}
