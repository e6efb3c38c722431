//! Setup packets are read and written, and each undoes the other. A device is enumerated by six answers.
ghost use Rattle.std.specs.Prelude.{◌≡◌, ◌↔◌, ℕ, List, [], ◌∷◌, Ok};
ghost use Rattle.usb_desc.specs.declared.device.DeviceDesc.{DeviceDesc};
ghost use Rattle.usb_desc.specs.declared.tree.ConfigTree.{ConfigTree};
ghost use Rattle.usb_ctrl.specs.Setup.{setup_of, bytes_of, low, high};
ghost use Rattle.usb_ctrl.specs.Requests.{get_descriptor, set_address, set_configuration};
ghost use Rattle.usb_ctrl.specs.Enumeration.{reached};
ghost use Rattle.usb_ctrl.specs.Attaching.{Six, six_list, Attaches};
ghost use Rattle.usb_ctrl.specs.declared.stage.Stage.TheVariants.{Done};

use crate::setup::Setup;

/// Bytes that were read are written again.
pub fn what_was_read_is_written(b: [u8; 8])
    ensures { bytes_of (setup_of b) ≡ b }
{}

/// A packet that was written is read again.
pub fn what_was_written_is_read(s: Setup)
    ensures { setup_of (bytes_of s) ≡ s }
{}

/// The bytes of the requests of an enumeration.
pub fn the_requests_have_these_bytes(address: u8, total: u16, value: u8)
    ensures begin { bytes_of (get_descriptor 0x0100 8) ≡ 0x80 ∷ 6 ∷ 0 ∷ 1 ∷ 0 ∷ 0 ∷ 8 ∷ 0 ∷ [] }
    ensures address { bytes_of (set_address address) ≡ 0 ∷ 5 ∷ address ∷ 0 ∷ 0 ∷ 0 ∷ 0 ∷ 0 ∷ [] }
    ensures device { bytes_of (get_descriptor 0x0100 18) ≡ 0x80 ∷ 6 ∷ 0 ∷ 1 ∷ 0 ∷ 0 ∷ 18 ∷ 0 ∷ [] }
    ensures head { bytes_of (get_descriptor 0x0200 9) ≡ 0x80 ∷ 6 ∷ 0 ∷ 2 ∷ 0 ∷ 0 ∷ 9 ∷ 0 ∷ [] }
    ensures config { bytes_of (get_descriptor 0x0200 total) ≡ 0x80 ∷ 6 ∷ 0 ∷ 2 ∷ 0 ∷ 0 ∷ low total ∷ high total ∷ [] }
    ensures end { bytes_of (set_configuration value) ≡ 0 ∷ 9 ∷ value ∷ 0 ∷ 0 ∷ 0 ∷ 0 ∷ 0 ∷ [] }
{}

/// Six answers enumerate a device exactly where each is what it must be.
pub fn six_answers_attach()
    ensures { (address : ℕ) (s : Six) (device : DeviceDesc) (config : ConfigTree)
        → (reached address (six_list s) ≡ Ok (Done device config)) ↔ Attaches s device config }
{}
