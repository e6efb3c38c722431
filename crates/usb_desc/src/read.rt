//! Reads a configuration, descriptor by descriptor.
ghost use Rattle.std.specs.Prelude.{◌≡◌, ◌≤◌, ◌⊎◌, length, slice_index, IfOk, IfErr};
ghost use Rattle.usb_desc.specs.Cut.{standard_length, Gives};
ghost use Rattle.usb_desc.specs.Read.{grown, read_on, config_of, begun, tree_of, first_fault};
ghost use Rattle.usb_desc.specs.Spell.{spell};
ghost use Rattle.usb_desc.specs.Good.{IsGood};
ghost use Rattle.usb_desc.specs.declared.tree.ConfigTree.{ConfigTree};

use crate::cut::split_first;
use crate::fault::DescFault;
use crate::growth::{add, piece_fault, tail_of};
use crate::kind::{CONFIGURATION, CONFIGURATION_LEN};
use crate::numbers::word;
use crate::tree::ConfigTree;
use std::alloc::Global;
use usb_types::{Buf, List, Memory};

fn config_of(alloc: Global, first: &[u8]) -> Result<ConfigTree, Memory>
    requires { 9 ≤ length first.now }
    ensures { IfOk result (λ tree. tree ≡ config_of first.now) }
{
    let tail = tail_of(alloc, first, CONFIGURATION_LEN as usize)?;
    Ok(ConfigTree {
        said: first[4],
        value: first[5],
        text: first[6],
        attributes: first[7],
        power: first[8],
        tail,
        extras: Buf::of(Vec::new(alloc)),
        alts: List::of(Vec::new(alloc)),
    })
}

fn begun(alloc: Global, total: usize, first: &[u8]) -> Result<ConfigTree, DescFault>
    requires header { 2 ≤ length first.now }
    requires long { standard_length (slice_index first.now 1) ≤ length first.now }
    ensures { Gives (λ tree. tree) result (begun total first.now) }
{
    if first[1] != CONFIGURATION {
        return Err(DescFault::BadType(0));
    }
    let said = word(first[2], first[3]);
    if said as usize != total {
        return Err(DescFault::TotalLength(said, total));
    }
    match config_of(alloc, first) {
        Ok(tree) => Ok(tree),
        Err(_) => Err(DescFault::Memory),
    }
}

fn grown(alloc: Global, tree: ConfigTree, at: usize, piece: &[u8]) -> Result<ConfigTree, DescFault>
    requires header { 2 ≤ length piece.now }
    requires long { standard_length (slice_index piece.now 1) ≤ length piece.now }
    ensures { Gives (λ next. next) result (grown tree at piece.now) }
{
    if let Some(fault) = piece_fault(&tree, at, piece) {
        return Err(fault);
    }
    let mut tree = tree;
    match add(alloc, &mut tree, piece) {
        Ok(()) => Ok(tree),
        Err(_) => Err(DescFault::Memory),
    }
}

#[tactic(auto, using(crate::proofs::Reading::read_next, crate::proofs::Reading::read_end))]
fn read_rest(
    alloc: Global,
    tree: ConfigTree,
    total: usize,
    bytes: &[u8],
) -> Result<ConfigTree, DescFault>
    requires { length bytes.now ≤ total }
    ensures { Gives (λ tree. tree) result (read_on total tree 0 bytes.now) }
{
    let mut tree = tree;
    let mut rest = bytes;
    while !rest.is_empty() {
        let at = total - rest.len();
        let (piece, behind) = split_first(rest, at, at)?;
        tree = grown(alloc, tree, at, piece)?;
        rest = behind;
    }
    Ok(tree)
}

fn tree_of(alloc: Global, bytes: &[u8]) -> Result<ConfigTree, DescFault>
    ensures { Gives (λ tree. tree) result (tree_of bytes.now) }
{
    let total = bytes.len();
    let (first, rest) = split_first(bytes, total, 0)?;
    let tree = begun(alloc, total, first)?;
    read_rest(alloc, tree, total, rest)
}

/// The configuration that the bytes are.
pub fn read_config(alloc: Global, bytes: &[u8]) -> Result<ConfigTree, DescFault>
    // What is read is good, and the bytes are its spelling.
    ensures found { IfOk result (λ tree. IsGood tree × (spell tree ≡ bytes.now)) }
    // A good one whose spelling the bytes are is read, unless memory runs out.
    ensures only { (tree : ConfigTree) → IsGood tree → spell tree ≡ bytes.now → (result ≡ Ok tree) ⊎ (result ≡ Err DescFault.Memory) }
    // A fault is the first one from left to right.
    ensures fault { IfErr result (λ fault. (first_fault bytes.now ≡ Some fault) ⊎ (fault ≡ DescFault.Memory)) }
    ensures exact { Gives (λ tree. tree) result (tree_of bytes.now) }
{
    tree_of(alloc, bytes)
}
