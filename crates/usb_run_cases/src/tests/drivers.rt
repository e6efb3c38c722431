//! Scenes with keyboards: what becomes of their reads, and the lights. The reports are written by hand.
use crate::tests::calling::check_reports;
use std::test::Fail;
use usb_run::Status;

const KEYBOARD: &str =
    "scene 1\ndevice k keyboard\nconfig 09022200010100A032 090400000103010100 092111010001223F00 0705810308000A\n";

const FOUND: &str = "device k 1209:0001\ninterface 0 hid 03/01/01 usbkbd\n";

#[test]
fn a_read_goes_on_or_rests_by_its_status(rt: HostRuntime) -> Result<(), Fail> {
    const ROWS: &[(&str, &str)] = &[
        // Nothing is said: the close kills the read.
        (
            "thread t\nserve\n",
            "thread t\ngiven\nk.0.in -ENOENT 0 rest -\ndriver k 0 usbkbd\n",
        ),
        // Eight bytes are asked for, so a packet of nine is too long; one of eight is a whole report.
        (
            "answer 81 p:000004000000000000 p:0000050000000000\nthread t\nserve\n",
            "thread t\ngiven\nk.0.in -EOVERFLOW 0 again 0 -\nk.0.in 0 8 again 0 0000050000000000\nk.0.in -ENOENT 0 rest -\ndriver k 0 usbkbd\ndown 05 b\n",
        ),
        // A packet without bytes is a success, and no report.
        (
            "answer 81 p: p:00 p:00000400000000\nthread t\nserve\n",
            "thread t\ngiven\nk.0.in 0 0 again 0 -\nk.0.in 0 1 again 0 00\nk.0.in 0 7 again 0 00000400000000\nk.0.in -ENOENT 0 rest -\ndriver k 0 usbkbd\n",
        ),
        // A stall, an unlink and a kill end the reading.
        (
            "answer 81 stall p:0000040000000000\nthread t\nserve\nunlink k.0.in\nserve\n",
            "thread t\n7 unlink k.0.in -EIDRM\ngiven\nk.0.in -EPIPE 0 rest -\ndriver k 0 usbkbd\n",
        ),
        (
            "answer 81 p:0000040000000000\nthread t\nunlink k.0.in\nserve\nkill k.0.in\nkill k.0.in\n",
            "thread t\n6 unlink k.0.in -EINPROGRESS\n8 kill k.0.in buffer 2000000\n9 kill k.0.in none\ngiven\nk.0.in -ECONNRESET 0 rest -\ndriver k 0 usbkbd\n",
        ),
        // After a refusal the transfer rests, whatever its status.
        (
            "answer 81 p:0000040000000000 p:0000000000000000\nthread t\nblock k.0.in\nserve\nunblock k.0.in\nserve\nkill k.0.in\n",
            "thread t\n6 block k.0.in ok\n8 unblock k.0.in ok\n10 kill k.0.in buffer 2000000\ngiven\nk.0.in 0 8 again -EPERM 0000040000000000\ndriver k 0 usbkbd\ndown 04 a\n",
        ),
        // A poisoned read stays away.
        (
            "answer 81 p:0000040000000000\nthread t\npoison k.0.in\nunpoison k.0.in\nserve\n",
            "thread t\n6 poison k.0.in buffer 2000000\n7 unpoison k.0.in ok\ngiven\nk.0.in -ENOENT 0 rest -\ndriver k 0 usbkbd\n",
        ),
    ];
    check_reports(&rt, KEYBOARD, "", Status::Done, FOUND, ROWS)
}

#[test]
fn a_report_comes_in_packets_of_any_size(rt: HostRuntime) -> Result<(), Fail> {
    const ROWS: &[(&str, &str)] = &[
        (
            "0705810301000A\nanswer 81 p:00 p:00 p:04 p:00 p:00 p:00 p:00 p:00 p:00 p:\nthread t\nserve\n",
            "thread t\ngiven\nk.0.in 0 8 again 0 0000040000000000\nk.0.in 0 1 again 0 00\nk.0.in -ENOENT 0 rest -\ndriver k 0 usbkbd\ndown 04 a\n",
        ),
        (
            "0705810303000A\nanswer 81 p:020004 p:000000 p:0000 p:020000 p:000000 p:000000\nthread t\nserve\n",
            "thread t\ngiven\nk.0.in 0 8 again 0 0200040000000000\nk.0.in -EOVERFLOW 6 again 0 020000000000\nk.0.in -ENOENT 0 rest -\ndriver k 0 usbkbd\ndown E1 leftshift\ndown 04 a\n",
        ),
        // Half a report is lost with the error after it, and the next read begins anew.
        (
            "0705810304000A\nanswer 81 p:00000400 error p:00000500 p:00000000 nak p:00000000 p:00000000\nthread t\nserve\nserve\n",
            "thread t\ngiven\nk.0.in -EPROTO 4 again 0 00000400\nk.0.in 0 8 again 0 0000050000000000\nk.0.in 0 8 again 0 0000000000000000\nk.0.in -ENOENT 0 rest -\ndriver k 0 usbkbd\ndown 05 b\nup 05 b\n",
        ),
        // What a kill finds half read is dropped.
        (
            "0705810304000A\nanswer 81 p:00000400 nak\nthread t\nserve\nkill k.0.in\n",
            "thread t\n7 kill k.0.in buffer 2000000\ngiven\nk.0.in -ENOENT 4 rest 00000400\ndriver k 0 usbkbd\n",
        ),
        // An endpoint with larger packets still moves eight bytes.
        (
            "0705810340000A\nanswer 81 p:0000040000000000 p:000000000000000000\nthread t\nserve\n",
            "thread t\ngiven\nk.0.in 0 8 again 0 0000040000000000\nk.0.in -EOVERFLOW 0 again 0 -\nk.0.in -ENOENT 0 rest -\ndriver k 0 usbkbd\ndown 04 a\n",
        ),
        // An interrupt endpoint without an interval takes no read.
        (
            "07058103080000\nanswer 81 p:0000040000000000\nthread t\nserve\nkill k.0.in\n",
            "thread t\n7 kill k.0.in none\ndriver k 0 usbkbd\n",
        ),
    ];
    check_reports(
        &rt,
        "scene 1\ndevice k keyboard\nconfig 09022200010100A032 090400000103010100 092111010001223F00 ",
        "",
        Status::Done,
        FOUND,
        ROWS,
    )
}

#[test]
fn lights_are_set_by_control_transfers(rt: HostRuntime) -> Result<(), Fail> {
    const ROWS: &[(&str, &str)] = &[
        // One at a time, each with the number of its line.
        (
            "thread t\nled k 0 05\nled k 0 06\nserve\nled k 000 07\nserve\n",
            "thread t\n5 led k 0 0\n6 led k 0 -EBUSY\n8 led k 0 0\ngiven\nk.0.ctl 0 1 rest -\nk.0.ctl 0 1 rest -\nk.0.in -ENOENT 0 rest -\ndriver k 0 usbkbd\nled 05\nled 07\n",
        ),
        (
            "thread t\nled k 0 05\nkill k.0.ctl\nkill k.0.ctl\n",
            "thread t\n5 led k 0 0\n6 kill k.0.ctl buffer 5\n7 kill k.0.ctl none\ngiven\nk.0.ctl -ENOENT 0 rest -\nk.0.in -ENOENT 0 rest -\ndriver k 0 usbkbd\n",
        ),
        (
            "thread t\npoison k.0.ctl\nled k 0 05\nunpoison k.0.ctl\nled k 1 05\n",
            "thread t\n5 poison k.0.ctl none\n6 led k 0 -EPERM\n7 unpoison k.0.ctl ok\n8 led k 1 -ENODEV\ngiven\nk.0.in -ENOENT 0 rest -\ndriver k 0 usbkbd\n",
        ),
        // The driver's two requests have used the first two items.
        (
            "answer 00 2*ack stall error nak\nthread t\nled k 0 01\nserve\nled k 0 02\nserve\nled k 0 03\nserve\nserve\n",
            "thread t\n6 led k 0 0\n8 led k 0 0\n10 led k 0 0\ngiven\nk.0.ctl -EPIPE 0 rest -\nk.0.ctl -EPROTO 0 rest -\nk.0.ctl 0 1 rest -\nk.0.in -ENOENT 0 rest -\ndriver k 0 usbkbd\nled 03\n",
        ),
        (
            "thread hub\ndown\nled k 0 01\nup\nled k 0 02\nserve\n",
            "thread hub\n5 down ok\n6 led k 0 -ESHUTDOWN\n7 up ok\n8 led k 0 0\ngiven\nk.0.in -ESHUTDOWN 0 rest -\nk.0.ctl 0 1 rest -\ndriver k 0 usbkbd\nled 02\n",
        ),
        // Lights and keys stand in the order in which they came back.
        (
            "answer 81 p:0000040000000000 nak p:0000000000000000\nthread t\nled k 0 02\nserve\nled k 0 00\nserve\n",
            "thread t\n6 led k 0 0\n8 led k 0 0\ngiven\nk.0.ctl 0 1 rest -\nk.0.in 0 8 again 0 0000040000000000\nk.0.ctl 0 1 rest -\nk.0.in 0 8 again 0 0000000000000000\nk.0.in -ENOENT 0 rest -\ndriver k 0 usbkbd\nled 02\ndown 04 a\nled 00\nup 04 a\n",
        ),
    ];
    check_reports(&rt, KEYBOARD, "", Status::Done, FOUND, ROWS)
}

#[test]
fn a_keyboard_without_control_packets_takes_no_lights(rt: HostRuntime) -> Result<(), Fail> {
    const ROWS: &[(&str, &str)] = &[
        (
            "desc 120100020000000009120100000100000001\nconfig 09022200010100A032 090400000103010100 092111010001223F00 0705810308000A\nthread t\nled k 0 01\n",
            "interface 0 hid 03/01/01 usbkbd\nthread t\n6 led k 0 -EMSGSIZE\ngiven\nk.0.in -ENOENT 0 rest -\ndriver k 0 usbkbd\n",
        ),
        // A printer's descriptors make it a printer's driver, which has no lights.
        (
            "config 09022000010100C000 090400000207010200 07050102400000 07058202400000\nthread t\nled k 0 01\nkill k.0.ctl\n",
            "interface 0 printer 07/01/02 usblp\nthread t\n5 led k 0 -ENODEV\n6 kill k.0.ctl none\ndriver k 0 usblp\n",
        ),
    ];
    check_reports(
        &rt,
        "scene 1\ndevice k keyboard\n",
        "",
        Status::Done,
        "device k 1209:0001\n",
        ROWS,
    )
}
