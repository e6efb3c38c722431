//! What reading and writing mean together.
ghost use Rattle.std.specs.Prelude.{◌≡◌, ℕ, List, None, Some, Ok};
ghost use Rattle.std.specs.List.{AllByRecursion};
ghost use Rattle.usb_desc.specs.declared.tree.ConfigTree.{ConfigTree};
ghost use Rattle.usb_desc.specs.declared.device.DeviceDesc.{DeviceDesc};
ghost use Rattle.usb_desc.specs.declared.fault.DescFault.{DescFault};
ghost use Rattle.usb_desc.specs.Spell.{spell};
ghost use Rattle.usb_desc.specs.Good.{IsByte, IsGood};
ghost use Rattle.usb_desc.specs.Read.{tree_of, first_fault};
ghost use Rattle.usb_desc.specs.FirstFault.{IsFirstFault};
ghost use Rattle.usb_desc.specs.Device.{spell_device, IsGoodDevice, device_of};

/// What is read and written again gives the same bytes.
pub fn what_is_read_writes_back()
    ensures { (bytes : List ℕ) (c : ConfigTree) → AllByRecursion IsByte bytes → tree_of bytes ≡ Ok c → IsGood c × (spell c ≡ bytes) }
{}

/// What is written and read again gives the same configuration.
pub fn what_is_written_reads_back()
    ensures { (c : ConfigTree) → IsGood c → tree_of (spell c) ≡ Ok c }
{}

/// No two good configurations have one spelling.
pub fn a_spelling_is_of_one_tree()
    ensures { (a b : ConfigTree) → IsGood a → IsGood b → spell a ≡ spell b → a ≡ b }
{}

/// Before the fault that is reported there is none.
pub fn reports_first_fault()
    ensures { (bytes : List ℕ) (fault : DescFault) → AllByRecursion IsByte bytes → first_fault bytes ≡ Some fault → IsFirstFault bytes fault }
{}

/// A fault before which there is none is reported.
pub fn first_fault_is_told()
    ensures { (bytes : List ℕ) (fault : DescFault) → IsFirstFault bytes fault → first_fault bytes ≡ Some fault }
{}

/// Bytes without fault are the spelling of a good configuration.
pub fn no_fault_is_a_configuration()
    ensures { (bytes : List ℕ) → AllByRecursion IsByte bytes → first_fault bytes ≡ None → (c : ConfigTree) × IsGood c × (spell c ≡ bytes) }
{}

/// A device that is read and written again gives the same bytes.
pub fn a_device_writes_back()
    ensures { (bytes : List ℕ) (d : DeviceDesc) → AllByRecursion IsByte bytes → device_of bytes ≡ Ok d → IsGoodDevice d × (spell_device d ≡ bytes) }
{}

/// A device that is written and read again is the same.
pub fn a_device_reads_back()
    ensures { (d : DeviceDesc) → IsGoodDevice d → device_of (spell_device d) ≡ Ok d }
{}
