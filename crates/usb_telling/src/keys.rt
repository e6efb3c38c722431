//! The events of a keyboard.
ghost use Rattle.std.specs.Prelude.{◌≡◌, ◌++◌, OnOk, codes};
ghost use Rattle.usb_text.specs.Print.{hex_pair};
ghost use Rattle.usb_telling.specs.Keys.{key_name, key_text, keys_text};

use usb_hid::Event;
use usb_text::push_pairs;
use usb_types::{Buf, Memory, name_of, usages};

fn key_name(code: u8) -> &'static str
    ensures { result.now ≡ key_name code }
{
    match name_of(&usages(), code as u32) {
        Some(name) => name,
        None => "-",
    }
}

// The rest of the line of a key: its usage and its name.
fn push_usage(report: &mut Buf, code: u8) -> Result<(), Memory>
    ensures { OnOk result (report.new ≡ report.old ++ (hex_pair code ++ codes " " ++ key_name code ++ codes "\n")) }
{
    push_pairs(report, &[code])?;
    report.append(b" ")?;
    report.append(key_name(code).as_bytes())?;
    report.append(b"\n")
}

fn push_lights(report: &mut Buf, lights: u8) -> Result<(), Memory>
    ensures { OnOk result (report.new ≡ report.old ++ (hex_pair lights ++ codes "\n")) }
{
    push_pairs(report, &[lights])?;
    report.append(b"\n")
}

fn push_key(report: &mut Buf, event: Event) -> Result<(), Memory>
    ensures { OnOk result (report.new ≡ report.old ++ key_text event) }
{
    match event {
        Event::Down { code } => {
            report.append(b"down ")?;
            push_usage(report, code)
        }
        Event::Up { code } => {
            report.append(b"up ")?;
            push_usage(report, code)
        }
        Event::Led { lights } => {
            report.append(b"led ")?;
            push_lights(report, lights)
        }
    }
}

/// Adds the lines of a keyboard's events.
pub(crate) fn push_keys(report: &mut Buf, events: &[Event]) -> Result<(), Memory>
    ensures { OnOk result (report.new ≡ report.old ++ keys_text events.now) }
{
    for event in events {
        push_key(report, *event)?;
    }
    Ok(())
}
