//! What becomes of a printer's transfers, and what they report.
ghost use Rattle.std.specs.Prelude.{◌≡◌};
ghost use Rattle.std.specs.Option.{option_to_list};
ghost use Rattle.usb_types.specs.declared.urb.Role.TheVariants.{Write};
ghost use Rattle.usb_types.specs.declared.errno.Code.TheVariants.{Zero};
ghost use Rattle.usb_machine.specs.Shapes.{HasWindow};
ghost use Rattle.usb_printer.specs.Jobs.{first_window, is_over, asks_port, job_events, port_events, told_by, action_of};

use crate::event::Event;
use usb_machine::Transfer;
use usb_types::{Action, Code, Errno, Role};

/// The most bytes that a window has.
const WINDOW: u32 = 8192;

/// How many bytes the first window of a job has. An empty job has one empty window.
pub fn first_window(len: u32) -> u32
    ensures { result ≡ first_window len }
{
    len.min(WINDOW)
}

/// What becomes of a transfer that came back.
pub(crate) fn action(role: Role, code: Code, t: &Transfer) -> Action
    requires { HasWindow t.now }
    ensures { result ≡ action_of role code t.now }
{
    match (role, code) {
        (Role::Write, Code::Zero) => next_window(t),
        (Role::Write, Code::Fault(Errno::ECONNRESET | Errno::ENOENT | Errno::ESHUTDOWN)) => {
            Action::Rest
        }
        (Role::Write, Code::Fault(_)) => Action::Ask,
        _ => Action::Rest,
    }
}

fn next_window(t: &Transfer) -> Action
    requires { HasWindow t.now }
    ensures { result ≡ action_of Write Zero t.now }
{
    match t.after_window() {
        0 => Action::Rest,
        rest => Action::Again {
            from: t.from + t.len,
            len: first_window(rest),
        },
    }
}

/// What a transfer that came back reports.
pub(crate) fn event(role: Role, code: Code, t: &Transfer) -> Option<Event>
    requires { HasWindow t.now }
    ensures { option_to_list result ≡ told_by role code t.now }
{
    match role {
        Role::Write => job_event(code, t),
        Role::Ctl => port_event(code, t),
        _ => None,
    }
}

fn job_event(code: Code, t: &Transfer) -> Option<Event>
    requires { HasWindow t.now }
    ensures { option_to_list result ≡ job_events code t.now }
{
    if !is_over(code, t) {
        return None;
    }
    Some(Event::Job {
        number: t.number,
        bytes: t.from + t.actual,
        code,
    })
}

fn is_over(code: Code, t: &Transfer) -> bool
    requires { HasWindow t.now }
    ensures { result ≡ is_over code t.now }
{
    code != Code::Zero || t.after_window() == 0
}

fn port_event(code: Code, t: &Transfer) -> Option<Event>
    requires { HasWindow t.now }
    ensures { option_to_list result ≡ port_events code t.now }
{
    if code != Code::Zero || !asks_port(&t.setup) {
        return None;
    }
    match t.moved() {
        [status] => Some(Event::Port { status: *status }),
        _ => None,
    }
}

/// Whether a setup packet asks for the port's status (printer class 1.1 §4.2.2).
fn asks_port(setup: &Option<[u8; 8]>) -> bool
    ensures { result ≡ asks_port setup.now }
{
    match setup {
        Some(setup) => setup[0] == 0xA1 && setup[1] == 0x01,
        None => false,
    }
}
