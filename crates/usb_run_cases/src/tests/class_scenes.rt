//! The lines of devices of a class, and calls on the URBs of their drivers: bad lines with their first causes. A last
//! line `foo` stands where all lines before it are good.
use crate::tests::calling::check_bad;
use std::alloc::Global;
use std::test::Fail;
use usb_scene::{Scene, SceneFault, Target, read_scene};
use usb_types::Role;
use usb_xfer::Kind;

#[test]
fn a_keyboard_has_descriptors_and_no_endpoints(rt: HostRuntime) -> Result<(), Fail> {
    const ROWS: &[(&str, &str)] = &[
        ("ep 81 bulk 8 0", "5: Word"),
        ("ep foo", "5: Word"),
        ("id 00", "5: Word"),
        ("port 18", "5: Word"),
        ("port", "5: Word"),
        ("desc", "5: Form"),
        ("desc 0", "5: Form"),
        ("desc fill:0:00", "5: Form"),
        ("desc fill:255:00\nfoo", "6: Word"),
        ("desc fill:256:00", "5: Limit"),
        ("desc fill:255:00 00", "5: Limit"),
        ("desc -\ndesc -", "6: Twice"),
        ("desc 12\ndesc fill:256:00", "6: Twice"),
        ("config", "5: Form"),
        ("config -\nconfig 00", "6: Twice"),
        ("desc -\nconfig - 09 fill:2:02\nfoo", "7: Word"),
        (
            "config fill:16384:00 fill:16384:00 fill:16384:00 fill:16383:00\nfoo",
            "6: Word",
        ),
        (
            "config fill:16384:00 fill:16384:00 fill:16384:00 fill:16384:00",
            "5: Limit",
        ),
        ("urb a d 81\ndesc -", "6: Word"),
        ("thread t\nconfig -", "6: Word"),
        ("device k acm", "5: Twice"),
        ("device l mouse", "5: Form"),
        ("device l Keyboard", "5: Form"),
        ("device l", "5: Form"),
        ("urb a k 81", "5: Name"),
        ("urb a k 00 len 4", "5: Name"),
    ];
    check_bad(
        &rt,
        "scene 1\ndevice d raw\nep 81 bulk 8 0\ndevice k keyboard\n",
        ROWS,
    )
}

#[test]
fn a_device_of_a_class_answers_at_each_address(rt: HostRuntime) -> Result<(), Fail> {
    const ROWS: &[(&str, &str)] = &[
        ("answer 85 p:00 nak\nanswer 05 ack\nfoo", "5: Word"),
        ("answer 00 ack nak stall 2*error\nfoo", "4: Word"),
        ("answer 00 p:", "3: Form"),
        ("answer 00 nak p:00", "3: Form"),
        ("answer 00", "3: Form"),
        ("answer 85 ack", "3: Form"),
        ("answer 05 p:00", "3: Form"),
        ("answer 10 nak", "3: Form"),
        ("answer 80 nak", "3: Form"),
    ];
    check_bad(&rt, "scene 1\ndevice m acm\n", ROWS)
}

#[test]
fn a_printer_has_an_id_and_a_port_status(rt: HostRuntime) -> Result<(), Fail> {
    const ROWS: &[(&str, &str)] = &[
        ("id", "3: Form"),
        ("id 0", "3: Form"),
        ("id -\nid -", "4: Twice"),
        ("port", "3: Form"),
        ("port 1", "3: Form"),
        ("port 18 18", "3: Form"),
        ("port 100", "3: Form"),
        ("port 18\nport 18", "4: Twice"),
        ("port 00\nid -\nport 00", "5: Twice"),
        ("desc -\nid 0002\nport fF\nconfig -\nfoo", "7: Word"),
        ("port 18\ndevice q printer\nport 18\nfoo", "6: Word"),
        ("port 18\ndevice q acm\nport 18", "5: Word"),
        ("device r raw\ndesc -", "4: Word"),
        ("device r raw\nid -", "4: Word"),
        ("ep 01 bulk 8 0", "3: Word"),
    ];
    check_bad(&rt, "scene 1\ndevice p printer\n", ROWS)
}

#[test]
fn urbs_of_drivers_are_named_by_device_number_and_role(rt: HostRuntime) -> Result<(), Fail> {
    const ROWS: &[(&str, &str)] = &[
        (
            "kill k.0.in\nkill k.000.ctl\nkill m.255.read1\nkill m.256.read1",
            "11: Limit",
        ),
        ("unlink k.0.read0\npoison k.0.write\nfoo", "10: Word"),
        ("kill d.0.in", "8: Name"),
        ("kill d.256.in", "8: Name"),
        ("kill x.0.in", "8: Name"),
        ("kill k", "8: Name"),
        ("kill k.256.in", "8: Limit"),
        ("kill k.0.out", "8: Form"),
        ("kill k.0", "8: Form"),
        ("kill k.1234567890.in", "8: Form"),
        ("kill k.0.in k.0.in", "8: Form"),
        ("submit k.0.in", "8: Name"),
        ("submit k.999.in", "8: Name"),
        ("submit m.0.write 00", "8: Name"),
    ];
    check_bad(
        &rt,
        "scene 1\ndevice d raw\nep 81 bulk 8 0\ndevice k keyboard\ndevice m acm\nurb a d 81\nthread t\n",
        ROWS,
    )
}

#[test]
fn rejects_are_counted_on_the_urbs_of_drivers_too(rt: HostRuntime) -> Result<(), Fail> {
    const ROWS: &[(&str, &str)] = &[
        ("unblock k.0.in", "8: Held"),
        ("unblock k.256.in", "8: Limit"),
        ("block k.0.in\nunblock k.00.in\nunblock k.0.in", "10: Held"),
        ("block k.0.in\nunpoison k.0.in\nfoo", "10: Word"),
        ("block k.0.in\nunblock k.1.in", "9: Held"),
        ("block k.0.in\nunblock k.0.ctl", "9: Held"),
        ("block k.0.in\nunblock m.0.in", "9: Held"),
        ("block a\nunblock k.0.in", "9: Held"),
        ("block k.0.in\nunblock a", "9: Held"),
        ("block k.0.in\nthread s\nunblock k.0.in", "10: Held"),
        (
            "poison m.7.note\nkill m.7.note\nunpoison m.07.note\nunpoison m.7.note",
            "11: Held",
        ),
    ];
    check_bad(
        &rt,
        "scene 1\ndevice d raw\nep 81 bulk 8 0\ndevice k keyboard\ndevice m acm\nurb a d 81\nthread t\n",
        ROWS,
    )
}

const CLASSES: &str =
    "scene 1\ndevice k keyboard\ndesc 1201\nconfig -\nanswer 00 nak\nanswer 81 p:00\ndevice p printer\nid 0005 fill:3:41\nport 10\ndevice q printer\nthread t\npoison k.007.in\n";

fn read(alloc: Global, text: &str) -> Result<Scene, SceneFault> {
    if text.len() > 1_048_576 {
        return Err(SceneFault::Memory);
    }
    read_scene(alloc, text.as_bytes())
}

#[test]
fn what_lines_give_is_in_the_scene(rt: HostRuntime) -> Result<(), Fail> {
    let scene = read(rt.alloc(), CLASSES)?;
    let (devices, threads) = (scene.devices.items(), scene.threads.items());
    assert_eq!(rt; devices.len(), 3);
    let (k, p, q) = (&devices[0].script, &devices[1].script, &devices[2].script);
    assert_eq!(rt;
        (k.kind, p.kind, q.kind),
        (Kind::Keyboard, Kind::Printer, Kind::Printer)
    );
    assert!(rt; matches!(&k.desc, Some(desc) if desc.bytes() == [0x12, 0x01].as_slice()));
    assert!(rt; matches!(&k.config, Some(config) if config.bytes().is_empty()));
    assert!(rt; k.id.is_none());
    assert_eq!(rt; (k.answers.items().len(), k.ends.items().len()), (2, 0));
    assert!(rt; matches!(&p.id, Some(id) if id.bytes() == [0, 5, 0x41, 0x41, 0x41].as_slice()));
    assert!(rt; q.desc.is_none() && q.config.is_none() && q.id.is_none());
    assert_eq!(rt; (k.port, p.port, q.port), (0x18, 0x10, 0x18));
    assert_eq!(rt; threads.len(), 1);
    let calls = threads[0].calls.items();
    assert_eq!(rt; calls.len(), 1);
    assert_eq!(rt; calls[0].code, 4);
    let target = Target::Role {
        device: 0,
        interface: 7,
        role: Role::In,
    };
    assert_eq!(rt; calls[0].target, target);
    Ok(())
}

#[test]
fn lights_are_set_on_an_interface(rt: HostRuntime) -> Result<(), Fail> {
    const ROWS: &[(&str, &str)] = &[
        ("led", "6: Form"),
        ("led k", "6: Form"),
        ("led k 0", "6: Form"),
        ("led k 0 2", "6: Form"),
        ("led k 0 002", "6: Form"),
        ("led k 0 0g", "6: Form"),
        ("led k 0 -", "6: Form"),
        ("led k 0 02 00", "6: Form"),
        ("led K 0 02", "6: Form"),
        ("led k x 02", "6: Form"),
        ("led k 1234567890 02", "6: Form"),
        ("led k.0.ctl 02", "6: Form"),
        ("led d 0 02", "6: Name"),
        ("led d 256 02", "6: Name"),
        ("led x 0 02", "6: Name"),
        ("led k 256 02", "6: Limit"),
        ("led k 999999999 02", "6: Limit"),
        (
            "led k 255 fF\nled k 000 0a # caps\nled p 0 02\nfoo",
            "9: Word",
        ),
        ("write k 0", "6: Form"),
        ("coding k 0 9600 3 0 8", "6: Limit"),
    ];
    check_bad(
        &rt,
        "scene 1\ndevice d raw\ndevice k keyboard\ndevice p printer\nthread t\n",
        ROWS,
    )
}
