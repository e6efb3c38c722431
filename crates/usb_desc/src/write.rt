//! Writes a configuration, descriptor by descriptor.
ghost use Rattle.std.specs.Prelude.{◌≡◌, ◌+◌, ◌<◌, ◌++◌, length, All, IfOk, OnOk};
ghost use Rattle.std.specs.List.{AllByRecursion, flat_map};
ghost use Rattle.usb_desc.specs.Spell.{low, high, end_bytes, alt_bytes, parts, written, spell};
ghost use Rattle.usb_desc.specs.Good.{IsByte, IsGood};

use crate::kind::{
    CONFIGURATION, CONFIGURATION_LEN, ENDPOINT, ENDPOINT_LEN, INTERFACE, INTERFACE_LEN,
};
use crate::numbers::{high, low};
use crate::tree::{Alt, ConfigTree, End};
use std::alloc::Global;
use usb_types::{Buf, Memory};

fn put_end(bytes: &mut Buf, end: &End) -> Result<(), Memory>
    requires { 7 + length end.now.tail < 256 }
    ensures { OnOk result (bytes.new ≡ bytes.old ++ end_bytes end.now) }
{
    let tail = end.tail.bytes();
    bytes.append(&[
        ENDPOINT_LEN + tail.len() as u8,
        ENDPOINT,
        end.address,
        end.attributes,
        low(end.max_packet),
        high(end.max_packet),
        end.interval,
    ])?;
    bytes.append(tail)?;
    bytes.append(end.extras.bytes())
}

fn put_ends(bytes: &mut Buf, ends: &[End]) -> Result<(), Memory>
    requires { All (λ e. 7 + length e.tail < 256) ends.now }
    ensures { OnOk result (bytes.new ≡ bytes.old ++ flat_map end_bytes ends.now) }
{
    for end in ends {
        put_end(bytes, end)?;
    }
    Ok(())
}

fn put_alt(bytes: &mut Buf, alt: &Alt) -> Result<(), Memory>
    requires own { 9 + length alt.now.tail < 256 }
    requires ends { All (λ e. 7 + length e.tail < 256) alt.now.ends }
    ensures { OnOk result (bytes.new ≡ bytes.old ++ alt_bytes alt.now) }
{
    let tail = alt.tail.bytes();
    bytes.append(&[
        INTERFACE_LEN + tail.len() as u8,
        INTERFACE,
        alt.number,
        alt.setting,
        alt.said,
        alt.class,
        alt.subclass,
        alt.protocol,
        alt.text,
    ])?;
    bytes.append(tail)?;
    bytes.append(alt.extras.bytes())?;
    put_ends(bytes, alt.ends.items())
}

#[tactic(auto, using(crate::proofs::Bytes::alt_short, crate::proofs::Bytes::ends_short))]
fn put_alts(bytes: &mut Buf, alts: &[Alt]) -> Result<(), Memory>
    requires { All (λ a. AllByRecursion IsByte (alt_bytes a)) alts.now }
    ensures { OnOk result (bytes.new ≡ bytes.old ++ flat_map alt_bytes alts.now) }
{
    for alt in alts {
        put_alt(bytes, alt)?;
    }
    Ok(())
}

fn put_parts(bytes: &mut Buf, c: &ConfigTree) -> Result<(), Memory>
    requires { All (λ a. AllByRecursion IsByte (alt_bytes a)) c.now.alts }
    ensures { OnOk result (bytes.new ≡ bytes.old ++ parts c.now) }
{
    bytes.append(c.extras.bytes())?;
    put_alts(bytes, c.alts.items())
}

fn written(alloc: Global, total: u16, c: &ConfigTree, body: &[u8]) -> Result<Buf, Memory>
    requires own { 9 + length c.now.tail < 256 }
    requires behind { body.now ≡ parts c.now }
    ensures { IfOk result (λ bytes. bytes ≡ written total c.now) }
{
    let tail = c.tail.bytes();
    let mut bytes = Buf::of(Vec::new(alloc));
    bytes.append(&[
        CONFIGURATION_LEN + tail.len() as u8,
        CONFIGURATION,
        low(total),
        high(total),
        c.said,
        c.value,
        c.text,
        c.attributes,
        c.power,
    ])?;
    bytes.append(tail)?;
    bytes.append(body)?;
    Ok(bytes)
}

/// The bytes of a configuration that bytes can spell.
#[tactic(auto, using(crate::proofs::Bytes::config_short))]
pub fn write_config(alloc: Global, c: &ConfigTree) -> Result<Buf, Memory>
    requires { IsGood c.now }
    ensures { IfOk result (λ bytes. bytes ≡ spell c.now) }
{
    let mut body = Buf::of(Vec::new(alloc));
    put_parts(&mut body, c)?;
    let total = CONFIGURATION_LEN as usize + c.tail.bytes().len() + body.bytes().len();
    written(alloc, total as u16, c, body.bytes())
}
