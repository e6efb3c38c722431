//! Enumeration of a device by the replies to six requests, and tables of names.
use crate::tests::descriptors::{HID_CONFIG, HID_DEVICE, HUB_DEVICE};
use std::process::Abort;
use std::test::Fail;
use usb_ctrl::{EnumFault, Enumerator, Setup};
use usb_desc::DescFault;
use usb_types::{Code, Errno, calls, classes, code_of, errnos, name_of, requests, usages};

// The next request, as bytes.
fn asked(enumerator: &Enumerator) -> Option<[u8; 8]> {
    match enumerator.next() {
        Some(setup) => Some(setup.write()),
        None => None,
    }
}

// What the answer to the next request yields, if there is one.
fn told(enumerator: &mut Enumerator, reply: &[u8], code: Code) -> Option<Result<(), EnumFault>> {
    if enumerator.next().is_none() {
        return None;
    }
    Some(enumerator.answer(reply, code))
}

#[test]
fn six_requests_enumerate_a_device(rt: HostRuntime) -> Result<(), Fail> {
    const ROWS: &[([u8; 8], &[u8])] = &[
        ([0x80, 6, 0, 1, 0, 0, 8, 0], &[0x12, 1, 0, 1, 0, 0, 0, 8]),
        ([0, 5, 5, 0, 0, 0, 0, 0], &[]),
        ([0x80, 6, 0, 1, 0, 0, 18, 0], &HID_DEVICE),
        (
            [0x80, 6, 0, 2, 0, 0, 9, 0],
            &[9, 2, 0x3b, 0, 2, 1, 0, 0xa0, 0x32],
        ),
        ([0x80, 6, 0, 2, 0, 0, 59, 0], &HID_CONFIG),
        ([0, 9, 1, 0, 0, 0, 0, 0], &[]),
    ];
    let mut enumerator = Enumerator::new(rt.alloc(), 5);
    for (request, reply) in ROWS {
        assert_eq!(rt; asked(&enumerator), Some(*request));
        assert_eq!(rt; told(&mut enumerator, reply, Code::Zero), Some(Ok(())));
    }
    assert_eq!(rt; asked(&enumerator), None);
    let Ok(attached) = enumerator.finish() else {
        return Err("the device is not attached".into());
    };
    assert_eq!(rt;
        (
            attached.address,
            attached.device.product,
            attached.config.value
        ),
        (5, 1, 1)
    );
    Ok(())
}

/// The replies go well but for the last, which has this fault. Then nothing is asked, and no device is attached.
fn check_fault<R: Abort + AllocGlobal>(
    rt: &R,
    good: &[&[u8]],
    last: &[u8],
    code: Code,
    fault: EnumFault,
) {
    let mut enumerator = Enumerator::new(rt.alloc(), 1);
    for reply in good {
        assert_eq!(rt; told(&mut enumerator, reply, Code::Zero), Some(Ok(())));
    }
    assert_eq!(rt; told(&mut enumerator, last, code), Some(Err(fault)));
    assert_eq!(rt; asked(&enumerator), None);
    assert!(rt; enumerator.finish().is_err());
}

#[test]
fn a_fault_ends_an_enumeration(rt: HostRuntime) {
    const FIRST: &[u8] = &[0x12, 1, 0, 1, 0, 0, 0, 8];
    const SHORT: EnumFault = EnumFault::Descriptor(DescFault::Short(7));
    const STALLED: EnumFault = EnumFault::Status {
        request: 6,
        errno: Errno::EPIPE,
    };
    const CHANGED: EnumFault = EnumFault::Changed {
        old: [0x12, 1, 0, 1, 0, 0, 0, 8],
        new: [0x12, 1, 0, 2, 9, 0, 0, 0x40],
    };
    check_fault(&rt, &[], &HID_DEVICE[..7], Code::Zero, SHORT);
    check_fault(&rt, &[], &[], Code::Fault(Errno::EPIPE), STALLED);
    check_fault(&rt, &[FIRST, &[]], &HUB_DEVICE, Code::Zero, CHANGED);
}

#[test]
fn a_setup_packet_is_eight_bytes(rt: HostRuntime) {
    const BYTES: [u8; 8] = [0x80, 6, 0x02, 0x01, 0x04, 0x03, 0x12, 0x34];
    const SETUP: Setup = Setup {
        kind: 0x80,
        request: 6,
        value: 0x0102,
        index: 0x0304,
        length: 0x3412,
    };
    assert_eq!(rt; Setup::read(BYTES), SETUP);
    assert_eq!(rt; SETUP.write(), BYTES);
}

#[test]
fn tables_are_searched_by_number(rt: HostRuntime) -> Result<(), Fail> {
    const NAMES: [Option<&str>; 5] = [
        Some("EREMOTEIO"),
        None,
        Some("rightgui"),
        Some("GET_DESCRIPTOR"),
        Some("vendor"),
    ];
    let names = [
        name_of(&errnos(), 121),
        name_of(&errnos(), 3),
        name_of(&usages(), 0xe7),
        name_of(&requests(), 6),
        name_of(&classes(), 0xff),
    ];
    assert_eq!(rt; names, NAMES);
    Ok(())
}

#[test]
fn tables_are_searched_by_name(rt: HostRuntime) -> Result<(), Fail> {
    let codes = [
        code_of(&errnos(), "EPERM"),
        code_of(&usages(), "f12"),
        code_of(&calls(), "softreset"),
        code_of(&calls(), "setting"),
    ];
    assert_eq!(rt; codes, [Some(1), Some(0x45), Some(30), None]);
    Ok(())
}
