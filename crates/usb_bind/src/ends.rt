//! The endpoints that the host knows of a device, after its endpoint 00.
ghost use Rattle.usb_desc.specs.declared.tree.Alt.{Alt};
ghost use Rattle.usb_desc.specs.declared.tree.End.{End};
ghost use Rattle.usb_machine.specs.declared.layout.Shape.{Shape};
ghost use Rattle.std.specs.Prelude.{◌≡◌, ◌<◌, ◌+◌, ◌++◌, false, if◌then◌else◌, List, fold, map, OnOk, IfSome, IsNone};
ghost use Rattle.usb_desc.specs.Growth.{has_end};
ghost use Rattle.usb_bind.specs.Seen.{KnowsNumbers, KnowsEnds, ends_from, Places};
ghost use Rattle.usb_bind.specs.Interfaces.{packet_size, kind_of, shape_of_end, host_ends, place_of, joins, joined, with_interface};

use crate::met::Met;
use crate::settings::opens;
use usb_desc::{Alt, ConfigTree, End};
use usb_machine::{EndKind, Shape};
use usb_types::{List, Memory};

/// The most bytes of a packet of an endpoint.
pub fn packet_size(end: &End) -> u16
    ensures { result ≡ packet_size end.now }
{
    end.max_packet % 2048
}

fn kind_of(attributes: u8) -> EndKind
    ensures { result ≡ kind_of attributes }
{
    match attributes % 4 {
        0 => EndKind::Control,
        1 => EndKind::Iso,
        2 => EndKind::Bulk,
        _ => EndKind::Interrupt,
    }
}

/// What the host knows of an endpoint of a device.
pub fn shape_of_end(device: u32, end: &End) -> Shape
    ensures { result ≡ shape_of_end device end.now }
{
    Shape {
        device,
        address: end.address,
        kind: kind_of(end.attributes),
        max: packet_size(end),
        interval: end.interval,
    }
}

/// Whether an endpoint joins those before it, where their addresses were met.
#[tactic(auto, using(crate::proofs::Meets::end_joined))]
fn joins(end: &End, met: &mut Met) -> bool
    ensures next { (ends : List End) → KnowsEnds met.old ends → (result ≡ joins ends end.now) × KnowsEnds met.new (joined ends end.now) }
    ensures count { met.new.count ≡ met.old.count + (if result then 1 else 0) }
{
    met.meet(end.address)
}

fn push_end(shapes: &mut List<Shape>, device: u32, end: &End, met: &mut Met) -> Result<(), Memory>
    ensures { (before : List Shape) (ends : List End) → KnowsEnds met.old ends → shapes.old ≡ before ++ map (shape_of_end device) ends
        → OnOk result (KnowsEnds met.new (joined ends end.now) × (shapes.new ≡ before ++ map (shape_of_end device) (joined ends end.now))) }
{
    if joins(end, met) {
        shapes.push(shape_of_end(device, end))
    } else {
        Ok(())
    }
}

fn push_ends(
    shapes: &mut List<Shape>,
    device: u32,
    ends: &[End],
    met: &mut Met,
) -> Result<(), Memory>
    ensures { (before : List Shape) (so_far : List End) → KnowsEnds met.old so_far → shapes.old ≡ before ++ map (shape_of_end device) so_far
        → OnOk result (KnowsEnds met.new (fold joined so_far ends.now) × (shapes.new ≡ before ++ map (shape_of_end device) (fold joined so_far ends.now))) }
{
    for end in ends {
        push_end(shapes, device, end, met)?;
    }
    Ok(())
}

fn push_alt(
    shapes: &mut List<Shape>,
    device: u32,
    alt: &Alt,
    numbers: &mut Met,
    met: &mut Met,
) -> Result<(), Memory>
    ensures { (before : List Shape) (alts : List Alt) → KnowsNumbers numbers.old alts → KnowsEnds met.old (ends_from alts)
        → shapes.old ≡ before ++ map (shape_of_end device) (ends_from alts)
        → OnOk result (KnowsNumbers numbers.new (with_interface alts alt.now) × KnowsEnds met.new (ends_from (with_interface alts alt.now))
        × (shapes.new ≡ before ++ map (shape_of_end device) (ends_from (with_interface alts alt.now)))) }
{
    if opens(alt, numbers) {
        push_ends(shapes, device, alt.ends.items(), met)
    } else {
        Ok(())
    }
}

/// Adds what the host knows of a device's endpoints, after its endpoint 00.
pub fn push_shapes(shapes: &mut List<Shape>, device: u32, config: &ConfigTree) -> Result<(), Memory>
    ensures { OnOk result (shapes.new ≡ shapes.old ++ map (shape_of_end device) (host_ends config.now)) }
{
    let mut numbers = Met::none();
    let mut met = Met::zero();
    for alt in config.alts.items() {
        push_alt(shapes, device, alt, &mut numbers, &mut met)?;
    }
    Ok(())
}

// An address's place among these endpoints and those that were met before, none of which has it.
fn place_among(ends: &[End], met: &mut Met, address: u8) -> Option<u32>
    ensures place { (so_far : List End) → KnowsEnds met.old so_far → has_end so_far address ≡ false
        → Places address (fold joined so_far ends.now) met.new result }
    ensures below { IfSome result (λ place. place < 256) }
{
    for end in ends {
        let place = met.count;
        if joins(end, met) && end.address == address {
            return Some(place);
        }
    }
    None
}

fn place_in(alt: &Alt, numbers: &mut Met, met: &mut Met, address: u8) -> Option<u32>
    ensures place { (alts : List Alt) → KnowsNumbers numbers.old alts → KnowsEnds met.old (ends_from alts) → has_end (ends_from alts) address ≡ false
        → Places address (ends_from (with_interface alts alt.now)) met.new result × (IsNone result → KnowsNumbers numbers.new (with_interface alts alt.now)) }
    ensures below { IfSome result (λ place. place < 256) }
{
    if opens(alt, numbers) {
        place_among(alt.ends.items(), met, address)
    } else {
        None
    }
}

/// An address's place among the endpoints after endpoint 00.
pub(crate) fn place_of(config: &ConfigTree, address: u8) -> Option<u32>
    ensures exact { result ≡ place_of config.now address }
    ensures below { IfSome result (λ place. place < 256) }
{
    let mut numbers = Met::none();
    let mut met = Met::zero();
    for alt in config.alts.items() {
        if let Some(place) = place_in(alt, &mut numbers, &mut met, address) {
            return Some(place);
        }
    }
    None
}
