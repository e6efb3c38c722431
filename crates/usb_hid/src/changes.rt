//! What changed from one report to the next, as events after those so far.
ghost use Rattle.std.specs.Prelude.{◌≡◌, ◌++◌, ◌<◌, ◌&&◌, ◌∷◌, [], ℕ, not, if◌then◌else◌, length, map, take, slice_index, OnOk, OnErr};
ghost use Rattle.std.specs.Int.{bit_at};
ghost use Rattle.usb_hid.specs.Reports.{is_roll_over as is_roll_over_of, is_key, has};
ghost use Rattle.usb_hid.specs.Changes.{turned as turned_of, modifier_changes, keys_lost, code_changes, Grown};

use crate::event::Event;
use std::alloc::AllocError;

/// The usage of the lowest bit's modifier, the left control key; the others follow (HID usage tables, page 07).
const LEFT_CONTROL: u8 = 0xE0;
/// The code that fills a report when more keys are down than it can name (HID usage tables, page 07).
const ERROR_ROLL_OVER: u8 = 0x01;
/// The last of the codes that are no key's (HID usage tables, page 07).
const ERROR_UNDEFINED: u8 = 0x03;

/// Adds what changed among the codes: nothing where the new ones are a roll-over. An `Err` may leave some of it.
pub(crate) fn push_codes(events: &mut Vec<Event>, old: &[u8], new: &[u8]) -> Result<(), AllocError>
    ensures ok { OnOk result (events.new.items ≡ events.old.items ++ code_changes old.now new.now) }
    ensures err { OnErr result (Grown events.old.items events.new.items) }
{
    if is_roll_over(new) {
        return Ok(());
    }
    push_lost(events, old, new, false)?;
    push_lost(events, new, old, true)
}

/// Adds the modifiers whose bit differs. An `Err` may leave some of them.
pub(crate) fn push_modifiers(events: &mut Vec<Event>, old: u8, new: u8) -> Result<(), AllocError>
    ensures ok { OnOk result (events.new.items ≡ events.old.items ++ modifier_changes old new) }
    ensures err { OnErr result (Grown events.old.items events.new.items) }
{
    for n in 0..8 {
        let down = bit(new, n) == 1;
        let differs = bit(old, n) != bit(new, n);
        push_if(events, differs, turned(down, LEFT_CONTROL + n))?;
    }
    Ok(())
}

/// Whether the codes name no keys, since too many are down (HID 1.11, appendix C).
pub(crate) fn is_roll_over(codes: &[u8]) -> bool
    ensures { result ≡ is_roll_over_of codes.now }
{
    codes.iter().all(|code| *code == ERROR_ROLL_OVER)
}

fn bit(modifiers: u8, n: u8) -> u8
    requires { n < 8 }
    ensures { result ≡ bit_at modifiers n }
{
    modifiers >> n & 1
}

fn turned(down: bool, key: u8) -> Event
    ensures { result ≡ turned_of down key }
{
    if down {
        Event::Down { code: key }
    } else {
        Event::Up { code: key }
    }
}

/// Adds the keys among the codes that the others lack, each at its first place.
fn push_lost(
    events: &mut Vec<Event>,
    codes: &[u8],
    others: &[u8],
    down: bool,
) -> Result<(), AllocError>
    ensures ok { OnOk result (events.new.items ≡ events.old.items ++ map (turned_of down) (keys_lost codes.now others.now)) }
    ensures err { OnErr result (Grown events.old.items events.new.items) }
{
    for (i, code) in codes.iter().enumerate() {
        let lost = is_released(*code, others, &codes[..i]);
        push_if(events, lost, turned(down, *code))?;
    }
    Ok(())
}

/// Whether the code is a key's that neither the others have nor the codes before it.
fn is_released(code: u8, others: &[u8], before: &[u8]) -> bool
    ensures { result ≡ (is_key code && not (has others.now code) && not (has before.now code)) }
{
    code > ERROR_UNDEFINED && !others.contains(&code) && !before.contains(&code)
}

fn push_if(events: &mut Vec<Event>, condition: bool, event: Event) -> Result<(), AllocError>
    ensures ok { OnOk result (events.new.items ≡ events.old.items ++ (if condition then event ∷ [] else [])) }
    ensures err { OnErr result (events.new.items ≡ events.old.items) }
{
    if condition {
        events.push(event)?;
    }
    Ok(())
}
