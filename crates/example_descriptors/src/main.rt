//! Prints configuration descriptors: each word names a file with the bytes of one. They are printed as a tree, or as
//! their first fault.
#![tactic(auto)]

mod text;

ghost use Rattle.std.specs.Prelude.{◌≡◌, ◌⊎◌, Some, Ok, length, IfOk, IfErr};
ghost use Rattle.usb_desc.specs.declared.fault.DescFault.TheVariants.{Memory};
ghost use Rattle.usb_desc.specs.declared.tree.ConfigTree.{ConfigTree};
ghost use Rattle.usb_desc.specs.Read.{tree_of, first_fault};
ghost use Rattle.example_descriptors.specs.Lines.{line_count};

use std::alloc::Global;
use std::{env, fs, io};
use text::{fault_line, tree_lines};
use usb_desc::{DescFault, read_config};

/// The lines of the configuration that the bytes are, or their first fault.
fn describe(alloc: Global, bytes: &[u8]) -> Result<Vec<String>, DescFault>
    // Lines come only of bytes that are a configuration, and are as many as it needs.
    ensures lines { IfOk result (λ lines. (tree : ConfigTree) × (tree_of bytes.now ≡ Ok tree) × (length lines.items ≡ line_count tree)) }
    // A fault is the first one, or memory ran out.
    ensures fault { IfErr result (λ fault. (first_fault bytes.now ≡ Some fault) ⊎ (fault ≡ Memory)) }
{
    let tree = read_config(alloc, bytes)?;
    match tree_lines(alloc, &tree) {
        Ok(lines) => Ok(lines),
        Err(_) => Err(DescFault::Memory),
    }
}

fn main(rt: HostRuntime) -> io::Result<()> {
    let alloc = rt.alloc();
    for name in env::args(&rt)?.skip(1) {
        let bytes = fs::read(&rt, name.as_str())?;
        println!(rt; "{name}")?;
        match describe(alloc, &bytes) {
            Ok(lines) => {
                for line in &lines {
                    println!(rt; "{line}")?;
                }
            }
            Err(fault) => println!(rt; "{}", fault_line(alloc, fault)?)?,
        }
    }
    Ok(())
}
