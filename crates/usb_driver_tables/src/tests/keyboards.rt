//! What keyboards said, and the events of it, written by hand from HID 1.11 (appendices B, C and F).
//!
//! A word is an URB that came back. Bytes alone are a read that succeeded, and after an errno one that failed; after
//! `led` they are lights that were sent, and after `unled` lights that were not taken.
use crate::tests::completions::{errno, push_bytes, transfer};
use std::alloc::Global;
use std::process::Abort;
use std::test::Fail;
use usb_hid::{Event, Keyboard, led_setup};
use usb_text::{cut, data_bytes, is_text};
use usb_types::{Action, Buf, Code, Errno, Memory, Role};

/// What came back by a word in front of its bytes.
fn kind(name: &[u8]) -> Result<(bool, Code), Fail> {
    if is_text(name, "led") {
        Ok((true, Code::Zero))
    } else if is_text(name, "unled") {
        Ok((true, Code::Fault(Errno::EPIPE)))
    } else {
        Ok((false, Code::Fault(errno(name)?)))
    }
}

/// Gives a keyboard what a word says.
fn complete(alloc: Global, keyboard: &mut Keyboard, word: &[u8]) -> Result<Action, Fail> {
    let (lights, code, digits) = match cut(word, b':') {
        Some((name, digits)) => {
            let (lights, code) = kind(name)?;
            (lights, code, digits)
        }
        None => (false, Code::Zero, word),
    };
    let moved = data_bytes(alloc, digits)?.ok_or("no bytes")?;
    let t = transfer(alloc, None, moved.bytes())?;
    let role = if lights { Role::Ctl } else { Role::In };
    Ok(keyboard.complete(role, code, &t)?)
}

/// The events as a report prints them, on one line and without names.
fn text_of(alloc: Global, events: &[Event]) -> Result<Buf, Memory> {
    let mut text = Buf::of(Vec::new(alloc));
    for event in events {
        match event {
            Event::Down { code } => push_bytes(&mut text, "down", &[*code])?,
            Event::Up { code } => push_bytes(&mut text, "up", &[*code])?,
            Event::Led { lights } => push_bytes(&mut text, "led", &[*lights])?,
        }
    }
    Ok(text)
}

/// Each row of words has these events.
fn check_events<R: Abort + AllocGlobal>(rt: &R, rows: &[(&str, &str)]) -> Result<(), Fail> {
    let alloc = rt.alloc();
    for (words, events) in rows {
        let mut keyboard = Keyboard::new(alloc);
        for word in words.split_ascii_whitespace() {
            complete(alloc, &mut keyboard, word.as_bytes())?;
        }
        let text = text_of(alloc, keyboard.events())?;
        assert_eq!(rt; text.bytes(), events.as_bytes(), "{words}");
    }
    Ok(())
}

#[test]
fn a_key_is_down_until_it_is_up(rt: HostRuntime) -> Result<(), Fail> {
    const ROWS: &[(&str, &str)] = &[
        ("", ""),
        ("0000000000000000", ""),
        ("0000040000000000", "down 04"),
        ("0000040000000000 0000000000000000", "down 04 up 04"),
        ("0000040000000000 0000040000000000", "down 04"),
        (
            "0000040000000000 0000000000000000 0000040000000000",
            "down 04 up 04 down 04",
        ),
        ("0000040000000000 0000050000000000", "down 04 up 04 down 05"),
        ("0000040000000000 0000000000000004", "down 04"),
        ("0000FF0000000000 0000650000000000", "down FF up FF down 65"),
    ];
    check_events(&rt, ROWS)
}

#[test]
fn releases_keep_the_old_order_and_presses_the_new(rt: HostRuntime) -> Result<(), Fail> {
    const ROWS: &[(&str, &str)] = &[
        (
            "0000040000000000 0000040500000000 0000050000000000 0000000000000000",
            "down 04 down 05 up 04 up 05",
        ),
        (
            "0000040506070809 0000000000000000",
            "down 04 down 05 down 06 down 07 down 08 down 09 up 04 up 05 up 06 up 07 up 08 up 09",
        ),
        (
            "0000090807060504",
            "down 09 down 08 down 07 down 06 down 05 down 04",
        ),
        (
            "0000060405000000 0000050000000000",
            "down 06 down 04 down 05 up 06 up 04",
        ),
        (
            "0000040000000000 0000050600000000",
            "down 04 up 04 down 05 down 06",
        ),
        (
            "0000070605000000 0000090608000000",
            "down 07 down 06 down 05 up 07 up 05 down 09 down 08",
        ),
        ("0000000400050000", "down 04 down 05"),
        (
            "0000040506000000 0000060504000000",
            "down 04 down 05 down 06",
        ),
    ];
    check_events(&rt, ROWS)
}

#[test]
fn modifiers_come_before_the_keys(rt: HostRuntime) -> Result<(), Fail> {
    const ROWS: &[(&str, &str)] = &[
        ("0100000000000000", "down E0"),
        (
            "FF00000000000000 0000000000000000",
            "down E0 down E1 down E2 down E3 down E4 down E5 down E6 down E7 up E0 up E1 up E2 up E3 up E4 up E5 up E6 up E7",
        ),
        ("0200000000000000 2000000000000000", "down E1 up E1 down E5"),
        ("2000000000000000 0200000000000000", "down E5 down E1 up E5"),
        (
            "AA00000000000000 5500000000000000",
            "down E1 down E3 down E5 down E7 down E0 up E1 down E2 up E3 down E4 up E5 down E6 up E7",
        ),
        (
            "0200000000000000 0200040000000000 0200000000000000 0000000000000000",
            "down E1 down 04 up 04 up E1",
        ),
        ("0200040000000000", "down E1 down 04"),
        (
            "0200040000000000 0000000000000000",
            "down E1 down 04 up E1 up 04",
        ),
        (
            "8100040000000000 8000050000000000",
            "down E0 down E7 down 04 up E0 up 04 down 05",
        ),
        // No boot keyboard has a modifier's usage among its codes. Here it is reported as any code is.
        ("0200E10000000000", "down E1 down E1"),
    ];
    check_events(&rt, ROWS)
}

#[test]
fn the_reserved_byte_and_codes_up_to_three_are_no_keys(rt: HostRuntime) -> Result<(), Fail> {
    const ROWS: &[(&str, &str)] = &[
        ("00FF000000000000", ""),
        ("0004050000000000 0005050000000000", "down 05"),
        ("0000010203000000", ""),
        ("0000040100000000", "down 04"),
        ("0000030400000000 0000030000000000", "down 04 up 04"),
        ("0000040000000000 0000020202020202", "down 04 up 04"),
        ("0000040000000000 0000030303030303", "down 04 up 04"),
    ];
    check_events(&rt, ROWS)
}

#[test]
fn a_roll_over_changes_modifiers_alone(rt: HostRuntime) -> Result<(), Fail> {
    const ROWS: &[(&str, &str)] = &[
        ("0000010101010101", ""),
        ("0000010101010101 0000040000000000", "down 04"),
        ("0000040000000000 0000010101010101", "down 04"),
        (
            "0000040000000000 0000010101010101 0000040000000000",
            "down 04",
        ),
        (
            "0000040000000000 0000010101010101 0000000000000000",
            "down 04 up 04",
        ),
        (
            "0000040000000000 0000010101010101 0200040000000000",
            "down 04 down E1",
        ),
        (
            "0000040000000000 0200010101010101 0000010101010101 0000050000000000",
            "down 04 down E1 up E1 up 04 down 05",
        ),
        (
            "0000040506070809 0000010101010101 000004050607080A",
            "down 04 down 05 down 06 down 07 down 08 down 09 up 09 down 0A",
        ),
        ("0000040000000000 00FF010101010101", "down 04"),
        // Five codes 01 are no roll-over.
        ("0000040000000000 0000010101010104", "down 04"),
        ("0000040000000000 0000010101010100", "down 04 up 04"),
    ];
    check_events(&rt, ROWS)
}

#[test]
fn a_code_that_stands_twice_counts_at_its_first_place(rt: HostRuntime) -> Result<(), Fail> {
    const ROWS: &[(&str, &str)] = &[
        ("0000040400000000", "down 04"),
        ("0000040404040404 0000000000000000", "down 04 up 04"),
        (
            "0000050405000000 0000000000000000",
            "down 05 down 04 up 05 up 04",
        ),
        ("0000040400000000 0000040000000000", "down 04"),
        ("0000040504000000 0000050000000000", "down 04 down 05 up 04"),
        ("0000040000000000 0000050405050000", "down 04 down 05"),
    ];
    check_events(&rt, ROWS)
}

#[test]
fn fewer_than_eight_bytes_are_no_report(rt: HostRuntime) -> Result<(), Fail> {
    const ROWS: &[(&str, &str)] = &[
        ("-", ""),
        ("00000400000000", ""),
        ("0000040000000000 -", "down 04"),
        ("0000040000000000 00000000000000", "down 04"),
        ("0000040000000000 02", "down 04"),
        (
            "0000040000000000 00000500000000 0000050000000000",
            "down 04 up 04 down 05",
        ),
        // Of more bytes the first eight are the report.
        ("000004000000000005", "down 04"),
        ("00000400000000000000050000000000", "down 04"),
    ];
    check_events(&rt, ROWS)
}

#[test]
fn a_read_that_failed_says_nothing(rt: HostRuntime) -> Result<(), Fail> {
    const ROWS: &[(&str, &str)] = &[
        ("ENOENT:0000040000000000", ""),
        ("0000040000000000 EPROTO:0000000000000000", "down 04"),
        (
            "0000040000000000 EOVERFLOW:0000050000000000 0000000000000000",
            "down 04 up 04",
        ),
        ("EPIPE:0200040000000000 0000050000000000", "down 05"),
        (
            "ECONNRESET:0000040000000000 ESHUTDOWN:0000050000000000 EREMOTEIO:0000060000000000",
            "",
        ),
    ];
    check_events(&rt, ROWS)
}

#[test]
fn lights_are_the_first_byte_that_was_sent(rt: HostRuntime) -> Result<(), Fail> {
    const ROWS: &[(&str, &str)] = &[
        ("led:02", "led 02"),
        ("led:02 led:00", "led 02 led 00"),
        ("led:0703", "led 07"),
        ("led:-", ""),
        ("unled:02", ""),
        ("led:0000040000000000", "led 00"),
        (
            "0000390000000000 led:02 0000000000000000",
            "down 39 led 02 up 39",
        ),
    ];
    check_events(&rt, ROWS)
}

#[test]
fn a_read_goes_on_unless_its_fault_stays(rt: HostRuntime) -> Result<(), Fail> {
    const AGAIN: Action = Action::Again { from: 0, len: 10 };
    const ROWS: &[(&str, Action)] = &[
        ("0000040000000000", AGAIN),
        ("EPROTO:0000040000000000", AGAIN),
        ("EOVERFLOW:0000040000000000", AGAIN),
        ("-", Action::Again { from: 0, len: 2 }),
        ("ENOENT:0000040000000000", Action::Rest),
        ("EPIPE:0000040000000000", Action::Rest),
        ("ECONNRESET:-", Action::Rest),
        ("ESHUTDOWN:-", Action::Rest),
        ("led:02", Action::Rest),
        ("unled:02", Action::Rest),
    ];
    let alloc = rt.alloc();
    for (word, action) in ROWS {
        let mut keyboard = Keyboard::new(alloc);
        let got = complete(alloc, &mut keyboard, word.as_bytes())?;
        assert_eq!(rt; got, *action, "{word}");
    }
    Ok(())
}

#[test]
fn lights_are_asked_by_a_setup_packet(rt: HostRuntime) -> Result<(), Fail> {
    const SETUPS: [[u8; 8]; 2] = [
        [0x21, 0x09, 0x00, 0x02, 0x00, 0x00, 0x01, 0x00],
        [0x21, 0x09, 0x00, 0x02, 0x03, 0x00, 0x01, 0x00],
    ];
    assert_eq!(rt; [led_setup(0), led_setup(3)], SETUPS);
    Ok(())
}
