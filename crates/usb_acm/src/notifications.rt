//! Notifications, one after the other in a stream of bytes (CDC 1.2 §6.3, PSTN 1.2 §6.5).
ghost use Rattle.std.specs.Prelude.{◌≡◌, ◌++◌, ◌≤◌, length, drop, true, IfOk, OnOk, OnErr};
ghost use Rattle.usb_acm.specs.Notifications.{data_length as data_length_of, note_length as note_length_of, is_whole as is_whole_of, is_state as is_state_of, event_of, notes, unfinished, Grown};

use crate::event::Event;
use std::alloc::{AllocError, Global};

/// The length of a notification without its data.
const HEAD: usize = 8;
/// The most bytes of data that a notification has here.
const MOST_DATA: usize = 64;
/// The bmRequestType of a notification: from the interface, of a class.
const FROM_INTERFACE: u8 = 0xA1;
/// The bNotification that reports the lines (PSTN 1.2 §6.5.4).
const SERIAL_STATE: u8 = 0x20;

/// Adds what the whole notifications at the front report, and says where the bytes after them begin. An `Err` may leave
/// some of it.
pub(crate) fn push_notes(events: &mut Vec<Event>, bytes: &[u8]) -> Result<usize, AllocError>
    ensures ok { OnOk result (events.new.items ≡ events.old.items ++ notes bytes.now) }
    ensures within { IfOk result (λ at. at ≤ length bytes.now) }
    ensures rest { IfOk result (λ at. drop at bytes.now ≡ unfinished bytes.now) }
    ensures err { OnErr result (Grown events.old.items events.new.items) }
{
    let mut at = 0;
    while is_whole(&bytes[at..]) {
        let stream = &bytes[at..];
        events.push(event(stream))?;
        at += note_length(stream);
    }
    Ok(at)
}

/// Whether all of the notification at the front is there.
fn is_whole(stream: &[u8]) -> bool
    ensures { result ≡ is_whole_of stream.now }
{
    stream.len() >= HEAD && stream.len() >= note_length(stream)
}

/// The length of the notification at the front.
fn note_length(stream: &[u8]) -> usize
    requires { 8 ≤ length stream.now }
    ensures { result ≡ note_length_of stream.now }
{
    let data = data_length(stream);
    if data > MOST_DATA { HEAD } else { HEAD + data }
}

fn data_length(stream: &[u8]) -> usize
    requires { 8 ≤ length stream.now }
    ensures { result ≡ data_length_of stream.now }
{
    u16::from_le_bytes([stream[6], stream[7]]).into()
}

/// What the notification at the front reports.
fn event(stream: &[u8]) -> Event
    requires { is_whole_of stream.now ≡ true }
    ensures { result ≡ event_of stream.now }
{
    if data_length(stream) > MOST_DATA {
        return Event::BadNote;
    }
    if is_state(stream) {
        return Event::State {
            bits: u16::from_le_bytes([stream[8], stream[9]]),
        };
    }
    Event::Note { request: stream[1] }
}

/// Whether the notification at the front reports the lines.
fn is_state(stream: &[u8]) -> bool
    requires { 8 ≤ length stream.now }
    ensures { result ≡ is_state_of stream.now }
{
    stream[0] == FROM_INTERFACE && stream[1] == SERIAL_STATE && data_length(stream) == 2
}
