//! What each driver needs of an interface.
ghost use Rattle.std.specs.Prelude.{◌≡◌, ◌<◌, ◌+◌, ◌^◌, length, find, option_copied, option_map, option_and_then};
ghost use Rattle.usb_desc.specs.declared.tree.End.{End};
ghost use Rattle.usb_bind.specs.declared.row.Driver.TheVariants.{Keyboard, Acm, Printer};
ghost use Rattle.usb_bind.specs.Interfaces.{place_of};
ghost use Rattle.usb_bind.specs.Needs.{is_missing, is_in, is_interrupt_in, is_bulk_in, is_bulk_out, data_of, data_ends, end_for, roles_of, needed, other_of, read_size};
ghost use Rattle.usb_bind.specs.Probe.{homes_of};

use crate::ends::{packet_size, place_of};
use crate::row::Driver;
use crate::settings::interface_at;
use crate::unions::data_interface;
use usb_desc::{Alt, ConfigTree, End};
use usb_types::Role;

/// The homes of a driver's URBs in order.
pub(crate) type Homes = [Option<u32>; 5];

/// Transfer types (USB 2.0 §9.6.6).
const BULK: u8 = 2;

const INTERRUPT: u8 = 3;

/// Bit 7 of an address is set where the data come in.
const IN: u8 = 0x80;

fn is_missing(end: &End) -> bool
    ensures { result ≡ is_missing end.now }
{
    end.address == 0 || packet_size(end) == 0
}

fn is_in(end: &End) -> bool
    ensures { result ≡ is_in end.now }
{
    IN <= end.address
}

fn is_interrupt_in(end: &End) -> bool
    ensures { result ≡ is_interrupt_in end.now }
{
    end.attributes % 4 == INTERRUPT && is_in(end) && !is_missing(end)
}

fn is_bulk_in(end: &End) -> bool
    ensures { result ≡ is_bulk_in end.now }
{
    end.attributes % 4 == BULK && is_in(end) && !is_missing(end)
}

fn is_bulk_out(end: &End) -> bool
    ensures { result ≡ is_bulk_out end.now }
{
    end.attributes % 4 == BULK && !is_in(end) && !is_missing(end)
}

fn interrupt_in(ends: &[End]) -> Option<&End>
    ensures { option_copied result ≡ find is_interrupt_in ends.now }
{
    ends.iter().find(|end| is_interrupt_in(end))
}

fn bulk_in(ends: &[End]) -> Option<&End>
    ensures { option_copied result ≡ find is_bulk_in ends.now }
{
    ends.iter().find(|end| is_bulk_in(end))
}

fn bulk_out(ends: &[End]) -> Option<&End>
    ensures { option_copied result ≡ find is_bulk_out ends.now }
{
    ends.iter().find(|end| is_bulk_out(end))
}

/// The data interface of an ACM interface, where it is there and another one.
fn data_of<'a>(config: &'a ConfigTree, alt: &Alt) -> Option<&'a Alt>
    ensures { option_copied result ≡ data_of config.now alt.now }
{
    let number = data_interface(alt);
    if number == alt.number as u16 {
        return None;
    }
    interface_at(config, number)
}

// The home of an URB at this endpoint.
fn home(config: &ConfigTree, first: u32, end: Option<&End>) -> Option<u32>
    requires { first < 2 ^ 31 }
    ensures { result ≡ option_map (λ place. first + 1 + place) (option_and_then (λ (e : End). place_of config.now e.address) (option_copied end.entry)) }
{
    Some(first + 1 + place_of(config, end?.address)?)
}

fn keyboard_homes(config: &ConfigTree, alt: &Alt, first: u32) -> Option<Homes>
    requires { first < 2 ^ 31 }
    ensures { result ≡ option_map (homes_of first) (needed Keyboard config.now alt.now) }
{
    let input = home(config, first, interrupt_in(alt.ends.items()))?;
    Some([Some(input), Some(first), None, None, None])
}

fn acm_homes(config: &ConfigTree, alt: &Alt, first: u32) -> Option<Homes>
    requires { first < 2 ^ 31 }
    ensures { result ≡ option_map (homes_of first) (needed Acm config.now alt.now) }
{
    let ends = data_of(config, alt)?.ends.items();
    let note = home(config, first, interrupt_in(alt.ends.items()))?;
    let read = home(config, first, bulk_in(ends))?;
    let write = home(config, first, bulk_out(ends))?;
    Some([Some(note), Some(read), Some(read), Some(write), Some(first)])
}

fn printer_homes(config: &ConfigTree, alt: &Alt, first: u32) -> Option<Homes>
    requires { first < 2 ^ 31 }
    ensures { result ≡ option_map (homes_of first) (needed Printer config.now alt.now) }
{
    let write = home(config, first, bulk_out(alt.ends.items()))?;
    Some([Some(write), Some(first), None, None, None])
}

/// The homes of a driver's URBs, where the interface has all that it needs. `first` is the device's endpoint 00.
pub(crate) fn homes_for(driver: Driver, config: &ConfigTree, alt: &Alt, first: u32) -> Option<Homes>
    requires { first < 2 ^ 31 }
    ensures { result ≡ option_map (homes_of first) (needed driver config.now alt.now) }
{
    match driver {
        Driver::Keyboard => keyboard_homes(config, alt, first),
        Driver::Acm => acm_homes(config, alt, first),
        Driver::Printer => printer_homes(config, alt, first),
    }
}

/// The other interface that a driver binds with this one.
pub(crate) fn other_of(driver: Driver, config: &ConfigTree, alt: &Alt) -> Option<u8>
    ensures { result ≡ other_of driver config.now alt.now }
{
    match driver {
        Driver::Acm => Some(data_of(config, alt)?.number),
        Driver::Keyboard | Driver::Printer => None,
    }
}

/// How many URBs a driver has.
pub(crate) fn urb_count(driver: Driver) -> u32
    ensures { result ≡ length (roles_of driver) }
{
    match driver {
        Driver::Keyboard => 2,
        Driver::Acm => 5,
        Driver::Printer => 2,
    }
}

fn data_ends<'a>(driver: Driver, config: &'a ConfigTree, alt: &'a Alt) -> &'a [End]
    ensures { result.now ≡ data_ends driver config.now alt.now }
{
    match driver {
        Driver::Keyboard => &[],
        Driver::Acm => match data_of(config, alt) {
            Some(data) => data.ends.items(),
            None => &[],
        },
        Driver::Printer => alt.ends.items(),
    }
}

/// How many bytes the buffer of a driver's read has: of a keyboard's reports eight, of notifications a packet, and of
/// the serial data two packets, each by the setting's own descriptor.
pub fn read_size(driver: Driver, config: &ConfigTree, alt: &Alt, role: Role) -> Option<u32>
    ensures { result ≡ read_size driver config.now alt.now role }
{
    match role {
        Role::In => Some(8),
        Role::Note => Some(packet_size(interrupt_in(alt.ends.items())?) as u32),
        Role::Read0 | Role::Read1 => {
            let end = bulk_in(data_ends(driver, config, alt))?;
            Some(2 * packet_size(end) as u32)
        }
        Role::Write | Role::Ctl => None,
    }
}
