//! A configuration, and a fault, in words.
ghost use Rattle.std.specs.Prelude.{◌≡◌, ◌+◌, length, sum_by, IfOk, OnOk};
ghost use Rattle.example_descriptors.specs.Lines.{lines_of, line_count};

use std::alloc::{AllocError, Global};
use usb_desc::{Alt, ConfigTree, DescFault, End};

/// The transfer type of an endpoint: bits 0 and 1 of its attributes.
fn kind_name(attributes: u8) -> &'static str {
    match attributes % 4 {
        0 => "control",
        1 => "isochronous",
        2 => "bulk",
        _ => "interrupt",
    }
}

/// Bit 7 of an endpoint's address.
fn direction(address: u8) -> &'static str {
    if address < 0x80 { "out" } else { "in" }
}

fn end_line(alloc: Global, end: &End) -> Result<String, AllocError> {
    let address = end.address;
    let kind = kind_name(end.attributes);
    let way = direction(address);
    let size = end.max_packet % 2048;
    let interval = end.interval;
    format!(in alloc;
        "      endpoint {address:02X} {kind} {way}, packets of {size}, interval {interval}"
    )
}

fn alt_line(alloc: Global, alt: &Alt) -> Result<String, AllocError> {
    let (number, setting) = (alt.number, alt.setting);
    let (class, subclass, protocol) = (alt.class, alt.subclass, alt.protocol);
    format!(in alloc;
        "    interface {number} setting {setting}, class {class:02X}/{subclass:02X}/{protocol:02X}"
    )
}

fn push_alt(alloc: Global, lines: &mut Vec<String>, alt: &Alt) -> Result<(), AllocError>
    ensures { OnOk result (length lines.new.items ≡ length lines.old.items + lines_of alt.now) }
{
    lines.push(alt_line(alloc, alt)?)?;
    for end in alt.ends.items() {
        lines.push(end_line(alloc, end)?)?;
    }
    Ok(())
}

/// A line for the configuration, one for each setting, and one for each endpoint.
pub fn tree_lines(alloc: Global, tree: &ConfigTree) -> Result<Vec<String>, AllocError>
    ensures { IfOk result (λ lines. length lines.items ≡ line_count tree.now) }
{
    let (value, milliamperes) = (tree.value, 2 * u32::from(tree.power));
    let head = format!(in alloc; "  configuration {value}, {milliamperes} mA")?;
    let mut lines = vec![in alloc; head]?;
    for alt in tree.alts.items() {
        push_alt(alloc, &mut lines, alt)?;
    }
    Ok(lines)
}

/// The fault, after its place in the bytes.
pub fn fault_line(alloc: Global, fault: DescFault) -> Result<String, AllocError> {
    match fault {
        DescFault::Short(at) => format!(in alloc; "  byte {at}: too few bytes are left"),
        DescFault::BadLength(at) => format!(in alloc; "  byte {at}: shorter than its type"),
        DescFault::BadType(at) => format!(in alloc; "  byte {at}: no configuration"),
        DescFault::TotalLength(said, found) => {
            format!(in alloc; "  byte 2: it says {said} bytes, and there are {found}")
        }
        DescFault::EndpointWithoutInterface(at) => {
            format!(in alloc; "  byte {at}: an endpoint before the first interface")
        }
        DescFault::TwiceEndpoint(at) => {
            format!(in alloc; "  byte {at}: an endpoint address that stands before")
        }
        DescFault::Limit(at) => format!(in alloc; "  byte {at}: one descriptor too many"),
        DescFault::Memory => String::from_str(alloc, "  memory ran out"),
    }
}
