//! How many items of a script were used.
ghost use Rattle.std.specs.Prelude.{◌≡◌, ◌≤◌, MatchOption};
ghost use Rattle.usb_device.specs.Counts.{one_more};

use usb_xfer::What;

/// How many items were used, after this one.
pub fn counted(used: u64, next: &Option<&What>) -> u64
    ensures count { MatchOption next.now (result ≡ used) (λ what. result ≡ one_more used) }
    ensures rises { used ≤ result }
{
    match next {
        Some(_) => used.saturating_add(1),
        None => used,
    }
}
