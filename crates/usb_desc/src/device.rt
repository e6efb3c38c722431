//! The descriptor of a device.
ghost use Rattle.std.specs.Prelude.{◌≡◌, ◌≤◌, length, IfOk, IfErr};
ghost use Rattle.usb_desc.specs.declared.device.DeviceDesc.{DeviceDesc};
ghost use Rattle.usb_desc.specs.Device.{spell_device, IsGoodDevice, device_fields, device_of, first_device_fault};

use crate::fault::DescFault;
use crate::kind::{DEVICE, DEVICE_LEN};
use crate::numbers::{high, low, word};

/// A device. Versions and releases are binary-coded decimals, as in the descriptor.
#[derive(Clone, Copy, Debug, PartialEq)]
pub struct DeviceDesc {
    pub usb: u16,
    pub class: u8,
    pub subclass: u8,
    pub protocol: u8,
    /// The packet size of endpoint 0.
    pub max0: u8,
    pub vendor: u16,
    pub product: u16,
    pub release: u16,
    /// The indices of the strings of the manufacturer, the product and the serial number.
    pub texts: [u8; 3],
    /// How many configurations it has.
    pub configs: u8,
}

fn fields_of(d: &[u8]) -> DeviceDesc
    requires { 18 ≤ length d.now }
    ensures { result ≡ device_fields d.now }
{
    DeviceDesc {
        usb: word(d[2], d[3]),
        class: d[4],
        subclass: d[5],
        protocol: d[6],
        max0: d[7],
        vendor: word(d[8], d[9]),
        product: word(d[10], d[11]),
        release: word(d[12], d[13]),
        texts: [d[14], d[15], d[16]],
        configs: d[17],
    }
}

fn device_of(bytes: &[u8]) -> Result<DeviceDesc, DescFault>
    ensures { result ≡ device_of bytes.now }
{
    let total = bytes.len();
    if total < 2 {
        return Err(DescFault::Short(total));
    }
    if total < bytes[0] as usize {
        return Err(DescFault::Short(total));
    }
    if bytes[0] != DEVICE_LEN {
        return Err(DescFault::BadLength(0));
    }
    if bytes[1] != DEVICE {
        return Err(DescFault::BadType(0));
    }
    if total > DEVICE_LEN as usize {
        return Err(DescFault::BadLength(18));
    }
    Ok(fields_of(bytes))
}

/// The device that the bytes are.
pub fn read_device(bytes: &[u8]) -> Result<DeviceDesc, DescFault>
    // What is read is good, and the bytes are its spelling.
    ensures found { IfOk result (λ d. IsGoodDevice d × (spell_device d ≡ bytes.now)) }
    // A good one whose spelling the bytes are is read.
    ensures only { (d : DeviceDesc) → IsGoodDevice d → spell_device d ≡ bytes.now → result ≡ Ok d }
    // A fault is the first one from left to right.
    ensures fault { IfErr result (λ fault. first_device_fault bytes.now ≡ Some fault) }
    ensures exact { result ≡ device_of bytes.now }
{
    device_of(bytes)
}

/// The bytes of a device.
pub fn write_device(d: &DeviceDesc) -> [u8; 18]
    ensures { result ≡ spell_device d.now }
{
    [
        DEVICE_LEN,
        DEVICE,
        low(d.usb),
        high(d.usb),
        d.class,
        d.subclass,
        d.protocol,
        d.max0,
        low(d.vendor),
        high(d.vendor),
        low(d.product),
        high(d.product),
        low(d.release),
        high(d.release),
        d.texts[0],
        d.texts[1],
        d.texts[2],
        d.configs,
    ]
}
