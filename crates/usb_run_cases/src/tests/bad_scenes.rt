//! Texts that are no scenes for what stands before their calls, each with its first bad line and the first cause against it.
use crate::tests::calling::check_bad;
use std::test::Fail;

// A scene with a device that has two endpoints.
const ENDS: &str = "scene 1\ndevice d raw\nep 81 bulk 64 0\nep 02 bulk 64 0\n";

const HEADERS: &[(&str, &str)] = &[
    ("", "1: Header"),
    ("\n", "1: Header"),
    ("\n\n", "2: Header"),
    ("\n\r", "2: Header"),
    ("\r", "1: Header"),
    ("# only a comment", "1: Header"),
    ("# c\n  \t\n", "2: Header"),
    ("scene 9", "1: Header"),
    ("scene 2", "1: Header"),
    ("scene 01", "1: Header"),
    ("scene 1 1", "1: Header"),
    ("scene 1#", "1: Header"),
    ("scene", "1: Header"),
    ("scene1", "1: Header"),
    ("Scene 1", "1: Header"),
    ("device d raw", "1: Header"),
    ("\n# c\ndevice d raw\nscene 1", "3: Header"),
    ("thread t\nscene 1", "1: Header"),
    ("\x01", "1: Byte"),
    ("scene 1\x7f", "1: Byte"),
    ("scene 1\n\x0b", "2: Byte"),
    ("scene 1\né", "2: Byte"),
    ("scene 1\n# \x1b", "2: Byte"),
    ("scene 1\r\r\n", "1: Byte"),
    ("scene 1\n#a\rb\n", "2: Byte"),
    ("\r \n", "1: Byte"),
    ("scene 1\n \rx", "2: Byte"),
    ("scene 9\n\x01", "1: Header"),
    ("scene 1\nfoo\n\x01", "2: Word"),
    ("\x01\nscene 9", "1: Byte"),
    ("scene 9 \x01", "1: Byte"),
    ("\n\x01", "2: Byte"),
    ("\x01\n\n", "1: Byte"),
];

#[test]
fn a_scene_begins_with_its_header_and_has_plain_bytes(rt: HostRuntime) -> Result<(), Fail> {
    check_bad(&rt, "", HEADERS)
}

const BEFORE_DEVICES: &[(&str, &str)] = &[
    ("scene 1", "2: Word"),
    ("scene 2", "2: Word"),
    ("foo", "2: Word"),
    ("Device d raw", "2: Word"),
    ("device", "2: Form"),
    ("device d", "2: Form"),
    ("device d raw raw", "2: Form"),
    ("device D raw", "2: Form"),
    ("device 1d raw", "2: Form"),
    ("device _d raw", "2: Form"),
    ("device d-e raw", "2: Form"),
    ("device abcdefghijklmnopq raw", "2: Form"),
    ("device d Raw", "2: Form"),
    ("device d mouse", "2: Form"),
    ("ep 81 bulk 64 0", "2: Word"),
    ("answer 81 nak", "2: Word"),
    ("answer 00 nak", "2: Word"),
    ("desc -", "2: Word"),
    ("config -", "2: Word"),
    ("id -", "2: Word"),
    ("port 18", "2: Word"),
    ("anchor g", "2: Word"),
    ("urb a d 81", "2: Name"),
    ("urb a d 00", "2: Name"),
    ("urb", "2: Form"),
    ("thread", "2: Form"),
    ("thread t u", "2: Form"),
    ("thread T", "2: Form"),
    ("thread server", "2: Twice"),
    ("submit a", "2: Word"),
    ("serve", "2: Word"),
    ("kill a", "2: Word"),
    ("down", "2: Word"),
    ("up", "2: Word"),
    ("unplug d", "2: Word"),
    ("led d 0 02", "2: Word"),
    ("setting d 0 0", "2: Word"),
    ("device d raw\ndevice d raw", "3: Twice"),
    ("device d raw # x\n\n\ndevice d raw", "5: Twice"),
    ("device d raw\ndevice d keyboard", "3: Twice"),
];

#[test]
fn devices_come_first(rt: HostRuntime) -> Result<(), Fail> {
    check_bad(&rt, "scene 1\n", BEFORE_DEVICES)
}

const DEVICE_LINES: &[(&str, &str)] = &[
    ("ep", "3: Form"),
    ("ep 81", "3: Form"),
    ("ep 81 bulk 64", "3: Form"),
    ("ep 81 bulk 64 0 0", "3: Form"),
    ("ep 00 bulk 64 0", "3: Form"),
    ("ep 80 bulk 64 0", "3: Form"),
    ("ep 10 bulk 64 0", "3: Form"),
    ("ep 90 bulk 64 0", "3: Form"),
    ("ep 8 bulk 64 0", "3: Form"),
    ("ep 081 bulk 64 0", "3: Form"),
    ("ep 8g bulk 64 0", "3: Form"),
    ("ep 81 control 64 0", "3: Form"),
    ("ep 81 BULK 64 0", "3: Form"),
    ("ep 81 interrupt 64 0", "3: Form"),
    ("ep 81 bulk x 0", "3: Form"),
    ("ep 81 bulk -1 0", "3: Form"),
    ("ep 81 bulk 1234567890 0", "3: Form"),
    ("ep 81 bulk 64 0000000000", "3: Form"),
    ("ep 81 bulk 1025 0", "3: Limit"),
    ("ep 81 bulk 999999999 0", "3: Limit"),
    ("ep 81 int 8 256", "3: Limit"),
    ("ep 81 iso 8 1x", "3: Form"),
    ("ep 81 bulk 64 0\nep 81 int 8 1", "4: Twice"),
    ("ep 8a bulk 64 0\nep 8A bulk 64 0", "4: Twice"),
    ("ep 81 bulk 64 0\nep 81 bulk 1025 0", "4: Twice"),
    ("answer", "3: Form"),
    ("answer 81", "3: Form"),
    ("answer 81 nak", "3: Name"),
    ("answer 00", "3: Form"),
    ("answer 00 ack p:00\nep 00 bulk 64 0", "4: Form"),
    ("answer 00 nak\nanswer 81 nak", "4: Name"),
    ("answer 80 nak", "3: Form"),
    ("answer 81 ack", "3: Form"),
    ("answer 01 p:00", "3: Form"),
    ("answer 01 p:", "3: Form"),
    ("desc -", "3: Word"),
    ("config 0902", "3: Word"),
    ("id -", "3: Word"),
    ("port 18", "3: Word"),
    ("urb a d 81", "3: Name"),
    ("urb a e 81", "3: Name"),
    ("serve", "3: Word"),
    (
        "device e raw\nep 81 bulk 64 0\ndevice f raw\nanswer 81 nak",
        "6: Name",
    ),
];

#[test]
fn a_device_has_lines_of_its_own(rt: HostRuntime) -> Result<(), Fail> {
    check_bad(&rt, "scene 1\ndevice d raw\n", DEVICE_LINES)
}

const ITEMS: &[(&str, &str)] = &[
    ("answer 81 nck", "5: Form"),
    ("answer 81 Nak", "5: Form"),
    ("answer 81 0*nak", "5: Form"),
    ("answer 81 4097*nak", "5: Form"),
    ("answer 81 *nak", "5: Form"),
    ("answer 81 2*", "5: Form"),
    ("answer 81 2*3*nak", "5: Form"),
    ("answer 81 1234567890*nak", "5: Form"),
    ("answer 81 p", "5: Form"),
    ("answer 81 p:0", "5: Form"),
    ("answer 81 p:0g", "5: Form"),
    ("answer 81 p:-", "5: Form"),
    ("answer 81 p:fill:0:11", "5: Form"),
    ("answer 81 p:fill:1025:11", "5: Form"),
    ("answer 81 p:fill:16385:11", "5: Form"),
    ("answer 81 p:fill:8:1", "5: Form"),
    ("answer 81 p:fill:8", "5: Form"),
    ("answer 81 p:fill::11", "5: Form"),
    ("answer 81 p:fill:8:11:", "5: Form"),
    ("answer 81 p: 00", "5: Form"),
    ("answer 81 nak ack", "5: Form"),
    ("answer 02 nak p:00", "5: Form"),
    ("answer 02 p:fill:8:11", "5: Form"),
    ("answer 00 nck", "5: Form"),
    ("answer 00 4097*ack", "5: Form"),
    ("answer 00 p:0", "5: Form"),
    ("answer 00 p:fill:1025:11", "5: Form"),
    (
        "answer 00 ack nak stall error p: 2*p:00\nanswer 81 ack",
        "6: Form",
    ),
    ("answer 83 nak", "5: Name"),
    ("answer 03 ack", "5: Name"),
    ("answer 01 nak", "5: Name"),
    ("answer 82 nak", "5: Name"),
    ("answer 83 nak nck", "5: Form"),
];

#[test]
fn an_item_is_of_its_kind(rt: HostRuntime) -> Result<(), Fail> {
    check_bad(&rt, ENDS, ITEMS)
}

const URBS: &[(&str, &str)] = &[
    ("urb a", "5: Form"),
    ("urb a d", "5: Form"),
    ("urb A d 81", "5: Form"),
    ("urb a D 81", "5: Form"),
    ("urb a d 0", "5: Form"),
    ("urb a d 000", "5: Form"),
    ("urb a d 8", "5: Form"),
    ("urb a d 81 8", "5: Form"),
    ("urb a d 81 len", "5: Form"),
    ("urb a d 81 len x", "5: Form"),
    ("urb a d 81 len 1234567890", "5: Form"),
    ("urb a d 81 again", "5: Form"),
    ("urb a d 81 long", "5: Form"),
    ("urb a d 81 short 1", "5: Form"),
    ("urb a d 81 len len 4", "5: Form"),
    ("urb d.0.in d 81", "5: Form"),
    ("urb a e 81", "5: Name"),
    ("urb a e 00", "5: Name"),
    ("urb a d 00 len 16385", "5: Limit"),
    ("urb a d 00\nurb a d 00", "6: Twice"),
    ("urb a d 83", "5: Name"),
    ("urb a d 82", "5: Name"),
    ("urb a d 83 len 99999", "5: Name"),
    ("urb a d 83 short short", "5: Name"),
    ("urb a d 81 len 16385", "5: Limit"),
    ("urb a d 81 again 64", "5: Limit"),
    ("urb a d 81 len 4 len 5", "5: Twice"),
    ("urb a d 81 again 1 short again 1", "5: Twice"),
    ("urb a d 81 short short", "5: Twice"),
    ("urb a d 81 len 4 len 99999", "5: Twice"),
    ("urb a d 81 len 99999 short short", "5: Twice"),
    ("urb a d 81\nurb a d 02", "6: Twice"),
    ("urb a d 81\nurb a d 83", "6: Name"),
    ("urb a d 81\nep 83 bulk 64 0", "6: Word"),
    ("urb a d 81\nanswer 81 nak", "6: Word"),
    ("urb a d 81\ndevice e raw", "6: Word"),
    ("thread t\nurb a d 81", "6: Word"),
    ("thread t\ndevice e raw", "6: Word"),
    ("thread t\nthread t", "6: Twice"),
    ("thread t\nthread server", "6: Twice"),
    ("thread t\nanswer 81 x", "6: Word"),
];

#[test]
fn an_urb_has_a_home_and_options(rt: HostRuntime) -> Result<(), Fail> {
    check_bad(&rt, ENDS, URBS)
}
