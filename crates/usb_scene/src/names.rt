//! A map from the names of URBs to their numbers.
ghost use Rattle.std.specs.Prelude.{◌≡◌, ℕ, List, Option, Some, None, OnOk, IfOk, if◌then◌else◌};
ghost use Rattle.std.specs.Str.{bytes_eq};
ghost use Rattle.usb_scene.specs.Named.{number_in};

use std::alloc::Global;
use std::collections::HashMap;
use usb_types::Memory;

fn owned(alloc: Global, bytes: &[u8]) -> Result<Vec<u8>, Memory>
    ensures { IfOk result (λ copy. copy.items ≡ bytes.now) }
{
    Ok(bytes.to_vec(alloc)?)
}

/// Names with their numbers.
#[derive(Drop)]
pub struct Names {
    numbers: HashMap<Vec<u8>, u32>,
}

impl Names {
    /// No names.
    pub fn none(alloc: Global) -> Names
        ensures { (name : List ℕ) → number_in result.numbers name ≡ None }
    {
        Names {
            numbers: HashMap::new(alloc),
        }
    }

    /// The number of a name.
    pub fn number(&self, name: &[u8]) -> Option<u32>
        ensures { result ≡ number_in self.now.numbers name.now }
    {
        self.numbers.get(name).copied()
    }

    /// Gives a name its number.
    pub fn add(&mut self, alloc: Global, name: &[u8], number: u32) -> Result<(), Memory>
        ensures { OnOk result ((other : List ℕ) → number_in self.new.numbers other ≡ (if bytes_eq name.now other then Some number else number_in self.old.numbers other)) }
    {
        let key = owned(alloc, name)?;
        let Ok(_) = self.numbers.insert(key, number) else {
            return Err(Memory);
        };
        Ok(())
    }
}
