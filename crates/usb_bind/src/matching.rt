//! Which interfaces a row matches.
ghost use Rattle.std.specs.Prelude.{◌≡◌, ◌↔◌, IsTrue, option_map};
ghost use Rattle.usb_bind.specs.declared.row.IdRow.{IdRow};
ghost use Rattle.usb_bind.specs.Matching.{is_set, fits, fits_device, fits_interface, needs_vendor, is_match, Matches, first_match};

use crate::flags::{
    ANY, ANY_INT, DEV_CLASS, DEV_HI, DEV_LO, DEV_PROTOCOL, DEV_SUBCLASS, INT_CLASS, INT_NUMBER,
    INT_PROTOCOL, INT_SUBCLASS, PRODUCT, VENDOR,
};
use crate::row::{Driver, IdRow};
use usb_desc::{Alt, DeviceDesc};

/// The class of a device whose interfaces its vendor defines.
const VENDOR_CLASS: u8 = 0xFF;

fn is_set(row: &IdRow, flags: u16) -> bool
    ensures { result ≡ is_set row.now flags }
{
    row.flags & flags != 0
}

fn fits(row: &IdRow, flag: u16, test: bool) -> bool
    ensures { result ≡ fits row.now flag test }
{
    !is_set(row, flag) || test
}

fn fits_device(row: &IdRow, device: &DeviceDesc) -> bool
    ensures { result ≡ fits_device row.now device.now }
{
    fits(row, VENDOR, row.vendor == device.vendor)
        && fits(row, PRODUCT, row.product == device.product)
        && fits(row, DEV_LO, row.lo <= device.release)
        && fits(row, DEV_HI, device.release <= row.hi)
        && fits(row, DEV_CLASS, row.class == device.class)
        && fits(row, DEV_SUBCLASS, row.subclass == device.subclass)
        && fits(row, DEV_PROTOCOL, row.protocol == device.protocol)
}

fn fits_interface(row: &IdRow, alt: &Alt) -> bool
    ensures { result ≡ fits_interface row.now alt.now }
{
    fits(row, INT_CLASS, row.int_class == alt.class)
        && fits(row, INT_SUBCLASS, row.int_subclass == alt.subclass)
        && fits(row, INT_PROTOCOL, row.int_protocol == alt.protocol)
        && fits(row, INT_NUMBER, row.int_number == alt.number)
}

fn needs_vendor(row: &IdRow, device: &DeviceDesc) -> bool
    ensures { result ≡ needs_vendor row.now device.now }
{
    device.class == VENDOR_CLASS && !is_set(row, VENDOR) && is_set(row, ANY_INT)
}

fn is_match(row: &IdRow, device: &DeviceDesc, alt: &Alt) -> bool
    ensures { result ≡ is_match row.now device.now alt.now }
{
    is_set(row, ANY)
        && fits_device(row, device)
        && fits_interface(row, alt)
        && !needs_vendor(row, device)
}

/// Whether a row matches an interface of a device.
pub fn matches(row: &IdRow, device: &DeviceDesc, alt: &Alt) -> bool
    ensures exact { result ≡ is_match row.now device.now alt.now }
    ensures means { IsTrue result ↔ Matches row.now device.now alt.now }
{
    is_match(row, device, alt)
}

/// The driver of the first row that matches.
pub(crate) fn first_driver(rows: &[IdRow], device: &DeviceDesc, alt: &Alt) -> Option<Driver>
    ensures { result ≡ option_map (λ (row : IdRow). row.driver) (first_match rows.now device.now alt.now) }
{
    let row = rows.iter().find(|row| matches(row, device, alt))?;
    Some(row.driver)
}
