//! What a descriptor adds to a configuration, and the faults that it may have.
ghost use Rattle.std.specs.Prelude.{◌≡◌, ◌+◌, ◌*◌, ◌≤◌, ◌<◌, length, slice_index, drop, IfOk, OnOk};
ghost use Rattle.std.specs.Option.{option_copied};
ghost use Rattle.usb_desc.specs.Cut.{standard_length};
ghost use Rattle.usb_desc.specs.Growth.{kind_of, word_at, on_last, end_of, alt_of, with_end, end_extended, alt_extended, extended, tree_with, last_alt, has_end, end_fault, piece_fault};

use crate::fault::DescFault;
use crate::kind::{ENDPOINT, ENDPOINT_LEN, INTERFACE, INTERFACE_LEN};
use crate::numbers::word;
use crate::tree::{Alt, ConfigTree, End};
use std::alloc::Global;
use usb_types::{Buf, List, Memory};

/// How many alternate settings a configuration may have.
const MAX_ALTS: usize = 64;

/// How many endpoints a setting may have.
const MAX_ENDS: usize = 30;

/// What a descriptor has after its first bytes.
pub fn tail_of(alloc: Global, piece: &[u8], standard: usize) -> Result<Buf, Memory>
    requires { standard ≤ length piece.now }
    ensures { IfOk result (λ tail. tail ≡ drop standard piece.now) }
{
    let bytes = piece[standard..].to_vec(alloc)?;
    Ok(Buf::of(bytes))
}

fn end_of(alloc: Global, piece: &[u8]) -> Result<End, Memory>
    requires { 7 ≤ length piece.now }
    ensures { IfOk result (λ e. e ≡ end_of piece.now) }
{
    let tail = tail_of(alloc, piece, ENDPOINT_LEN as usize)?;
    Ok(End {
        address: piece[2],
        attributes: piece[3],
        max_packet: word(piece[4], piece[5]),
        interval: piece[6],
        tail,
        extras: Buf::of(Vec::new(alloc)),
    })
}

fn alt_of(alloc: Global, piece: &[u8]) -> Result<Alt, Memory>
    requires { 9 ≤ length piece.now }
    ensures { IfOk result (λ a. a ≡ alt_of piece.now) }
{
    let tail = tail_of(alloc, piece, INTERFACE_LEN as usize)?;
    Ok(Alt {
        number: piece[2],
        setting: piece[3],
        said: piece[4],
        class: piece[5],
        subclass: piece[6],
        protocol: piece[7],
        text: piece[8],
        tail,
        extras: Buf::of(Vec::new(alloc)),
        ends: List::of(Vec::new(alloc)),
    })
}

#[tactic(auto, using(crate::proofs::Lasts::on_last_push))]
fn add_end(alts: &mut List<Alt>, end: End) -> Result<(), Memory>
    ensures { OnOk result (alts.new ≡ on_last (with_end end) alts.old) }
{
    match alts.pop() {
        Some(mut alt) => {
            alt.ends.push(end)?;
            alts.push(alt)
        }
        None => Ok(()),
    }
}

fn extend_end(end: &mut End, piece: &[u8]) -> Result<(), Memory>
    ensures { OnOk result (end.new ≡ end_extended piece.now end.old) }
{
    end.extras.append(piece)?;
    Ok(())
}

#[tactic(auto, using(crate::proofs::Lasts::alt_extended_none, crate::proofs::Lasts::alt_extended_push))]
fn extend_alt(alt: &mut Alt, piece: &[u8]) -> Result<(), Memory>
    ensures { OnOk result (alt.new ≡ alt_extended piece.now alt.old) }
{
    match alt.ends.pop() {
        Some(mut end) => {
            extend_end(&mut end, piece)?;
            alt.ends.push(end)
        }
        None => alt.extras.append(piece),
    }
}

#[tactic(auto, using(crate::proofs::Lasts::extended_none, crate::proofs::Lasts::extended_push))]
fn extend(tree: &mut ConfigTree, piece: &[u8]) -> Result<(), Memory>
    ensures { OnOk result (tree.new ≡ extended piece.now tree.old) }
{
    match tree.alts.pop() {
        Some(mut alt) => {
            extend_alt(&mut alt, piece)?;
            tree.alts.push(alt)
        }
        None => tree.extras.append(piece),
    }
}

/// Adds a descriptor.
pub fn add(alloc: Global, tree: &mut ConfigTree, piece: &[u8]) -> Result<(), Memory>
    requires header { 2 ≤ length piece.now }
    requires long { standard_length (slice_index piece.now 1) ≤ length piece.now }
    ensures { OnOk result (tree.new ≡ tree_with tree.old piece.now) }
{
    let kind = piece[1];
    if kind == INTERFACE {
        let alt = alt_of(alloc, piece)?;
        tree.alts.push(alt)
    } else if kind == ENDPOINT {
        let end = end_of(alloc, piece)?;
        add_end(&mut tree.alts, end)
    } else {
        extend(tree, piece)
    }
}

fn has_end(ends: &[End], address: u8) -> bool
    ensures { result ≡ has_end ends.now address }
{
    ends.iter().any(|end| end.address == address)
}

fn end_fault(alt: Option<&Alt>, at: usize, address: u8) -> Option<DescFault>
    ensures { result ≡ end_fault (option_copied alt.entry) at address }
{
    match alt {
        None => Some(DescFault::EndpointWithoutInterface(at)),
        Some(alt) => {
            if has_end(alt.ends.items(), address) {
                Some(DescFault::TwiceEndpoint(at))
            } else if alt.ends.items().len() < MAX_ENDS {
                None
            } else {
                Some(DescFault::Limit(at))
            }
        }
    }
}

/// The first fault of a whole descriptor at a place, where it has one.
pub fn piece_fault(tree: &ConfigTree, at: usize, piece: &[u8]) -> Option<DescFault>
    requires header { 2 ≤ length piece.now }
    requires long { standard_length (slice_index piece.now 1) ≤ length piece.now }
    ensures { result ≡ piece_fault tree.now at piece.now }
{
    let kind = piece[1];
    if kind == INTERFACE {
        if tree.alts.items().len() < MAX_ALTS {
            None
        } else {
            Some(DescFault::Limit(at))
        }
    } else if kind == ENDPOINT {
        end_fault(tree.alts.items().last(), at, piece[2])
    } else {
        None
    }
}
