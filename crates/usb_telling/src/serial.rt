//! The events of a serial port.
ghost use Rattle.std.specs.Prelude.{◌≡◌, ◌<◌, ◌++◌, OnOk, codes, decimal};
ghost use Rattle.std.specs.List.{flat_map};
ghost use Rattle.std.specs.Int.{bit_at};
ghost use Rattle.usb_types.specs.Codes.{code_text};
ghost use Rattle.usb_text.specs.Print.{hex_pair, hex_text};
ghost use Rattle.usb_telling.specs.Serial.{name_in, names_in, state_text, port_text, dropped_text, serial_text};

use usb_acm::Event;
use usb_text::{push_hex, push_number, push_pairs};
use usb_types::{Buf, Code, Memory};

// The rest of a line of bytes.
fn push_bytes(report: &mut Buf, bytes: &[u8]) -> Result<(), Memory>
    ensures { OnOk result (report.new ≡ report.old ++ (hex_text bytes.now ++ codes "\n")) }
{
    push_hex(report, bytes)?;
    report.append(b"\n")
}

fn bit(bits: u16, n: u8) -> u16
    requires { n < 16 }
    ensures { result ≡ bit_at bits n }
{
    bits >> n & 1
}

fn push_name(report: &mut Buf, bits: u16, n: u8, name: &str) -> Result<(), Memory>
    requires { n < 16 }
    ensures { OnOk result (report.new ≡ report.old ++ name_in bits n name.now) }
{
    if bit(bits, n) != 1 {
        return Ok(());
    }
    report.append(b" ")?;
    report.append(name.as_bytes())
}

// The names of the lines that stand, each after a space.
fn push_names(report: &mut Buf, bits: u16) -> Result<(), Memory>
    ensures { OnOk result (report.new ≡ report.old ++ names_in bits) }
{
    push_name(report, bits, 0, "dcd")?;
    push_name(report, bits, 1, "dsr")?;
    push_name(report, bits, 2, "break")?;
    push_name(report, bits, 3, "ring")?;
    push_name(report, bits, 4, "framing")?;
    push_name(report, bits, 5, "parity")?;
    push_name(report, bits, 6, "overrun")
}

// The rest of the line of a state.
fn push_state(report: &mut Buf, bits: u16) -> Result<(), Memory>
    ensures { OnOk result (report.new ≡ report.old ++ (state_text bits ++ codes "\n")) }
{
    push_pairs(report, &bits.to_be_bytes())?;
    push_names(report, bits)?;
    report.append(b"\n")
}

// The rest of the line of another notification.
fn push_note(report: &mut Buf, request: u8) -> Result<(), Memory>
    ensures { OnOk result (report.new ≡ report.old ++ (hex_pair request ++ codes "\n")) }
{
    push_pairs(report, &[request])?;
    report.append(b"\n")
}

// The rest of the line of a write.
fn push_write(report: &mut Buf, actual: u32, code: Code) -> Result<(), Memory>
    ensures { OnOk result (report.new ≡ report.old ++ (decimal actual ++ codes " " ++ code_text code ++ codes "\n")) }
{
    push_number(report, actual as u64)?;
    report.append(b" ")?;
    report.append(code.text().as_bytes())?;
    report.append(b"\n")
}

fn push_port(report: &mut Buf, event: &Event) -> Result<(), Memory>
    ensures { OnOk result (report.new ≡ report.old ++ port_text event.now) }
{
    match event {
        Event::Rx { bytes } => {
            report.append(b"rx ")?;
            push_bytes(report, bytes.bytes())
        }
        Event::State { bits } => {
            report.append(b"state ")?;
            push_state(report, *bits)
        }
        Event::Note { request } => {
            report.append(b"note ")?;
            push_note(report, *request)
        }
        Event::BadNote => report.append(b"badnote\n"),
        Event::Coding { bytes } => {
            report.append(b"coding ")?;
            push_bytes(report, bytes.bytes())
        }
        Event::Tx { actual, code } => {
            report.append(b"tx ")?;
            push_write(report, *actual, *code)
        }
    }
}

fn push_ports(report: &mut Buf, events: &[Event]) -> Result<(), Memory>
    ensures { OnOk result (report.new ≡ report.old ++ flat_map port_text events.now) }
{
    for event in events {
        push_port(report, event)?;
    }
    Ok(())
}

fn push_dropped(report: &mut Buf, dropped: u64) -> Result<(), Memory>
    ensures { OnOk result (report.new ≡ report.old ++ dropped_text dropped) }
{
    if dropped == 0 {
        return Ok(());
    }
    report.append(b"dropped ")?;
    push_number(report, dropped)?;
    report.append(b"\n")
}

/// Adds the lines of a serial port's events, and after them how many bytes were dropped, where any were.
pub(crate) fn push_serial(report: &mut Buf, events: &[Event], dropped: u64) -> Result<(), Memory>
    ensures { OnOk result (report.new ≡ report.old ++ serial_text events.now dropped) }
{
    push_ports(report, events)?;
    push_dropped(report, dropped)
}
