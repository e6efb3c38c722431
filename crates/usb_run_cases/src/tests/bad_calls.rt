//! Texts that are no scenes for one of their calls, each with its first bad line and the first cause against it.
use crate::tests::calling::check_bad;
use std::test::Fail;

// A scene whose next line is a call.
const SCRIPT: &str =
    "scene 1\ndevice d raw\nep 81 bulk 64 0\nep 02 bulk 64 0\nurb a d 81 len 8\nurb o d 02\nthread t\n";

const SUBMITS: &[(&str, &str)] = &[
    ("submit", "8: Form"),
    ("submit A", "8: Form"),
    ("submit b", "8: Name"),
    ("submit t", "8: Name"),
    ("submit d", "8: Name"),
    ("submit d.0.in", "8: Name"),
    ("submit x.0.in", "8: Name"),
    ("submit d.999.in", "8: Name"),
    ("submit d.0.foo", "8: Form"),
    ("submit d..in", "8: Form"),
    ("submit a.b", "8: Form"),
    ("submit d.0", "8: Form"),
    ("submit d.0.in.x", "8: Form"),
    ("submit d.1234567890.in", "8: Form"),
    ("submit D.0.in", "8: Form"),
    ("submit .0.in", "8: Form"),
    ("submit a 0", "8: Form"),
    ("submit a 0g", "8: Form"),
    ("submit a fill:0:11", "8: Form"),
    ("submit a fill:16385:11", "8: Form"),
    ("submit a fill:1:1", "8: Form"),
    ("submit a 01 -x", "8: Form"),
    ("submit a setup:", "8: Form"),
    ("submit a setup", "8: Form"),
    ("submit a setup:800600010000120", "8: Form"),
    ("submit a setup:80060001000012000", "8: Form"),
    ("submit a setup:800600010000120000", "8: Form"),
    ("submit a setup:800600010000120g", "8: Form"),
    ("submit a Setup:8006000100001200", "8: Form"),
    ("submit a setup: 8006000100001200", "8: Form"),
    ("submit a setup:fill:8:00", "8: Form"),
    (
        "submit a setup:8006000100001200 setup:8006000100001200",
        "8: Form",
    ),
    ("submit a 01 setup:8006000100001200", "8: Form"),
    ("submit a - setup:8006000100001200", "8: Form"),
    ("submit a setup:8006000100001200 0", "8: Form"),
    ("submit b setup:800600010000120", "8: Form"),
    ("submit b setup:8006000100001200", "8: Name"),
    ("submit d.0.in setup:8006000100001200", "8: Name"),
    (
        "submit a setup:8006000100001200 fill:16384:11 11",
        "8: Limit",
    ),
    ("submit b fill:16384:11 11", "8: Name"),
    ("submit a fill:16384:11 11", "8: Limit"),
    ("submit a fill:16384:11 fill:16384:11", "8: Limit"),
    ("submit a fill:16384:11 11 x", "8: Form"),
];

#[test]
fn a_submit_names_an_urb_and_its_data(rt: HostRuntime) -> Result<(), Fail> {
    check_bad(&rt, SCRIPT, SUBMITS)
}

const OTHER_CALLS: &[(&str, &str)] = &[
    ("unlink", "8: Form"),
    ("unlink a a", "8: Form"),
    ("unlink a setup:8006000100001200", "8: Form"),
    ("unlink b", "8: Name"),
    ("kill a 1", "8: Form"),
    ("kill b", "8: Name"),
    ("kill d.0.read0", "8: Name"),
    ("poison b", "8: Name"),
    ("poison", "8: Form"),
    ("block b", "8: Name"),
    ("block a.0.x", "8: Form"),
    ("unpoison a", "8: Held"),
    ("unblock a", "8: Held"),
    ("unpoison b", "8: Name"),
    ("block a\nunblock o", "9: Held"),
    ("block a\nunblock a\nunblock a", "10: Held"),
    ("block a\nthread u\nunblock a", "10: Held"),
    ("poison a\nunblock a\nunpoison a", "10: Held"),
    ("kill a\nunblock a", "9: Held"),
    ("unblock a a", "8: Form"),
    ("serve a", "8: Form"),
    ("serve 1", "8: Form"),
    ("down", "8: HubOnly"),
    ("up", "8: HubOnly"),
    ("down now", "8: Form"),
    ("up a", "8: Form"),
    ("thread hub\ndown\nthread u\ndown", "11: HubOnly"),
    ("thread hubs\nup", "9: HubOnly"),
    ("serve x\n\x01", "8: Form"),
    ("serve\n# \x01\nserve x", "9: Byte"),
    ("serve # x\n\nunlink b # y", "10: Name"),
];

#[test]
fn other_calls_have_their_forms_and_rules(rt: HostRuntime) -> Result<(), Fail> {
    check_bad(&rt, SCRIPT, OTHER_CALLS)
}

const UNKNOWN_WORDS: &[(&str, &str)] = &[
    ("add g a", "8: Word"),
    ("off a", "8: Word"),
    ("first g", "8: Word"),
    ("killall g", "8: Word"),
    ("poisonall g", "8: Word"),
    ("unpoisonall g", "8: Word"),
    ("unlinkall g", "8: Word"),
    ("scuttle g", "8: Word"),
    ("empty g", "8: Word"),
    ("unplug d", "8: Word"),
    ("reset d", "8: Word"),
    ("unbind d 0", "8: Word"),
    ("led d 0 02", "8: Name"),
    ("write d 0 00", "8: Name"),
    ("coding d 0 9600 0 0 8", "8: Name"),
    ("control d 0 03", "8: Name"),
    ("sendbreak d 0 1", "8: Name"),
    ("print d 0 00", "8: Name"),
    ("status d 0", "8: Name"),
    ("softreset d 0", "8: Name"),
    ("setting d 0 0", "8: Word"),
    ("anchor g", "8: Word"),
    ("discard a", "8: Word"),
    ("reap", "8: Word"),
    ("Submit a", "8: Word"),
    ("submit# a", "8: Word"),
    ("urb b d 81", "8: Word"),
    ("device e raw", "8: Word"),
    ("ep 83 bulk 64 0", "8: Word"),
    ("scene 1", "8: Word"),
];

#[test]
fn words_that_are_not_known_here(rt: HostRuntime) -> Result<(), Fail> {
    check_bad(&rt, SCRIPT, UNKNOWN_WORDS)
}
