//! What a transfer that came back goes on with.
ghost use Rattle.std.specs.Prelude.{◌≡◌};
ghost use Rattle.usb_class.specs.Handler.{goes_again, window_by};

use usb_machine::Transfer;
use usb_types::Action;

/// Whether the transfer is submitted again.
pub fn goes_again(action: Action) -> bool
    ensures { result ≡ goes_again action }
{
    matches!(action, Action::Again { .. })
}

/// The transfer with the window that its driver asks for, where it does; no byte of it is moved.
pub fn with_window(action: Action, t: Transfer) -> Transfer
    ensures { result ≡ window_by action t }
{
    match action {
        Action::Again { from, len } => Transfer {
            from,
            len,
            actual: 0,
            ..t
        },
        _ => Transfer { actual: 0, ..t },
    }
}
