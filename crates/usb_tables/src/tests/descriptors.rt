//! Descriptors of real devices, read field by field and written back, and every cut of a configuration.
use std::alloc::Global;
use std::process::Abort;
use std::test::Fail;
use usb_desc::{Alt, DescFault, DeviceDesc, read_config, read_device, write_config, write_device};

// The device of the HID class's example: a keyboard with a mouse (HID 1.11, appendix E.1).
pub const HID_DEVICE: [u8; 18] = [
    0x12, 0x01, 0x00, 0x01, 0x00, 0x00, 0x00, 0x08, 0xff, 0xff, 0x01, 0x00, 0x01, 0x00, 0x04, 0x0e,
    0x30, 0x01,
];

// Its configuration, two interfaces with an endpoint each (HID 1.11, appendices E.2 to E.9).
pub const HID_CONFIG: [u8; 59] = [
    0x09, 0x02, 0x3b, 0x00, 0x02, 0x01, 0x00, 0xa0, 0x32, 0x09, 0x04, 0x00, 0x00, 0x01, 0x03, 0x01,
    0x01, 0x00, 0x09, 0x21, 0x01, 0x01, 0x00, 0x01, 0x22, 0x3f, 0x00, 0x07, 0x05, 0x81, 0x03, 0x08,
    0x00, 0x0a, 0x09, 0x04, 0x01, 0x00, 0x01, 0x03, 0x01, 0x02, 0x00, 0x09, 0x21, 0x01, 0x01, 0x00,
    0x01, 0x22, 0x32, 0x00, 0x07, 0x05, 0x82, 0x03, 0x08, 0x00, 0x0a,
];

// A hub's device and its configuration (USB 2.0 §11.23.1).
pub const HUB_DEVICE: [u8; 18] = [
    0x12, 0x01, 0x00, 0x02, 0x09, 0x00, 0x00, 0x40, 0x6b, 0x1d, 0x02, 0x00, 0x06, 0x05, 0x03, 0x02,
    0x01, 0x01,
];

const HUB_CONFIG: [u8; 25] = [
    0x09, 0x02, 0x19, 0x00, 0x01, 0x01, 0x00, 0xe0, 0x00, 0x09, 0x04, 0x00, 0x00, 0x01, 0x09, 0x00,
    0x00, 0x00, 0x07, 0x05, 0x81, 0x03, 0x01, 0x00, 0xff,
];

// A serial adapter: a communication interface with four functional descriptors, and a data interface.
const SERIAL: [u8; 67] = [
    0x09, 0x02, 0x43, 0x00, 0x02, 0x01, 0x00, 0x80, 0x32, 0x09, 0x04, 0x00, 0x00, 0x01, 0x02, 0x02,
    0x01, 0x00, 0x05, 0x24, 0x00, 0x10, 0x01, 0x05, 0x24, 0x01, 0x00, 0x01, 0x04, 0x24, 0x02, 0x02,
    0x05, 0x24, 0x06, 0x00, 0x01, 0x07, 0x05, 0x82, 0x03, 0x08, 0x00, 0x10, 0x09, 0x04, 0x01, 0x00,
    0x02, 0x0a, 0x00, 0x00, 0x00, 0x07, 0x05, 0x01, 0x02, 0x40, 0x00, 0x00, 0x07, 0x05, 0x81, 0x02,
    0x40, 0x00, 0x00,
];

// Where a descriptor of it begins or the last one ends.
const ENDS: [usize; 10] = [9, 18, 23, 28, 32, 37, 44, 53, 60, 67];

fn fault(alloc: Global, bytes: &[u8]) -> Option<DescFault> {
    read_config(alloc, bytes).err()
}

// The place after the last whole descriptor of the first n bytes.
fn end_before(n: usize) -> usize {
    let mut at = 0;
    for end in ENDS {
        if end <= n {
            at = end;
        }
    }
    at
}

#[test]
fn a_cut_configuration_tells_its_first_fault(rt: HostRuntime) -> Result<(), Fail> {
    let alloc = rt.alloc();
    for n in 0..67usize {
        let wanted = if n < 9 {
            DescFault::Short(n)
        } else {
            DescFault::TotalLength(67, n)
        };
        assert_eq!(rt; fault(alloc, &SERIAL[..n]), Some(wanted));
    }
    for n in 9..68usize {
        let mut bytes = SERIAL[..n].to_vec(alloc)?;
        bytes[2] = n as u8;
        let at = end_before(n);
        let wanted = if at == n {
            None
        } else {
            Some(DescFault::Short(at))
        };
        assert_eq!(rt; fault(alloc, &bytes), wanted);
    }
    Ok(())
}

#[test]
fn a_broken_configuration_tells_its_first_fault(rt: HostRuntime) -> Result<(), Fail> {
    const ROWS: &[(&[u8], DescFault)] = &[
        (
            &[9, 2, 16, 0, 1, 1, 0, 0xa0, 50, 7, 5, 0x81, 3, 8, 0, 10],
            DescFault::EndpointWithoutInterface(9),
        ),
        (
            &[9, 2, 11, 0, 1, 1, 0, 0xa0, 50, 0, 4],
            DescFault::BadLength(9),
        ),
        (&[8, 4, 8, 0, 1, 1, 0, 0xa0], DescFault::BadLength(0)),
        (&[7, 5, 7, 0, 1, 1, 0], DescFault::BadType(0)),
    ];
    let alloc = rt.alloc();
    for (bytes, wanted) in ROWS {
        assert_eq!(rt; fault(alloc, bytes), Some(*wanted));
    }
    Ok(())
}

const HID: DeviceDesc = DeviceDesc {
    usb: 0x0100,
    class: 0,
    subclass: 0,
    protocol: 0,
    max0: 8,
    vendor: 0xffff,
    product: 1,
    release: 1,
    texts: [0x04, 0x0e, 0x30],
    configs: 1,
};

const HUB: DeviceDesc = DeviceDesc {
    usb: 0x0200,
    class: 9,
    subclass: 0,
    protocol: 0,
    max0: 64,
    vendor: 0x1d6b,
    product: 2,
    release: 0x0506,
    texts: [3, 2, 1],
    configs: 1,
};

#[test]
fn devices_are_read_field_by_field(rt: HostRuntime) -> Result<(), Fail> {
    assert_eq!(rt; read_device(&HID_DEVICE), Ok(HID));
    assert_eq!(rt; read_device(&HUB_DEVICE), Ok(HUB));
    assert_eq!(rt; write_device(&HID), HID_DEVICE);
    assert_eq!(rt; write_device(&HUB), HUB_DEVICE);
    assert_eq!(rt;
        read_device(&HUB_DEVICE[..17]).err(),
        Some(DescFault::Short(17))
    );
    Ok(())
}

fn written(alloc: Global, bytes: &[u8]) -> Result<Vec<u8>, Fail> {
    match read_config(alloc, bytes) {
        Ok(tree) => {
            let again = write_config(alloc, &tree)?;
            Ok(again.bytes().to_vec(alloc)?)
        }
        Err(_) => Ok(Vec::new(alloc)),
    }
}

/// An interface's number, setting and count of endpoints, its class, subclass and protocol, and its other descriptors.
type Interface = ([u8; 3], [u8; 3], &'static [u8]);

/// The interface is this one, and has this endpoint alone.
fn check_alt<R: Abort>(rt: &R, alt: &Alt, interface: &Interface, end: &(u8, u8, u16, u8)) {
    let (numbers, class, extras) = interface;
    assert_eq!(rt; [alt.number, alt.setting, alt.said], *numbers);
    assert_eq!(rt; [alt.class, alt.subclass, alt.protocol], *class);
    assert_eq!(rt; alt.extras.bytes(), *extras);
    let ends = alt.ends.items();
    assert_eq!(rt; ends.len(), 1);
    let found = &ends[0];
    assert_eq!(rt;
        (
            found.address,
            found.attributes,
            found.max_packet,
            found.interval
        ),
        *end
    );
}

#[test]
fn configurations_are_read_field_by_field(rt: HostRuntime) -> Result<(), Fail> {
    const KEYBOARD: Interface = (
        [0, 0, 1],
        [3, 1, 1],
        &[0x09, 0x21, 0x01, 0x01, 0x00, 0x01, 0x22, 0x3f, 0x00],
    );
    const MOUSE: Interface = (
        [1, 0, 1],
        [3, 1, 2],
        &[0x09, 0x21, 0x01, 0x01, 0x00, 0x01, 0x22, 0x32, 0x00],
    );
    let Ok(tree) = read_config(rt.alloc(), &HID_CONFIG) else {
        return Err("a configuration is not read".into());
    };
    assert_eq!(rt;
        [tree.said, tree.value, tree.attributes, tree.power],
        [2, 1, 0xa0, 50]
    );
    let alts = tree.alts.items();
    assert_eq!(rt; alts.len(), 2);
    check_alt(&rt, &alts[0], &KEYBOARD, &(0x81, 3, 8, 10));
    check_alt(&rt, &alts[1], &MOUSE, &(0x82, 3, 8, 10));
    Ok(())
}

#[test]
fn configurations_are_written_back(rt: HostRuntime) -> Result<(), Fail> {
    const CONFIGS: &[&[u8]] = &[&HID_CONFIG, &HUB_CONFIG, &SERIAL];
    for bytes in CONFIGS {
        let again = written(rt.alloc(), bytes)?;
        assert_eq!(rt; again.as_slice(), *bytes);
    }
    Ok(())
}
