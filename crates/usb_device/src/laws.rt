//! What the replies of a device mean together.
ghost use Rattle.std.specs.Prelude.{ℕ, ◌≡◌, ◌≢◌, ◌<◌, ◌≤◌, ◌∷◌, ◌++◌, [], true, false, List, length};
ghost use Rattle.usb_ctrl.specs.declared.setup.Setup.{Setup};
ghost use Rattle.usb_xfer.specs.Replies.{Ask};
ghost use Rattle.usb_xfer.specs.declared.script.What.TheVariants.{Stall, Packet};
ghost use Rattle.usb_xfer.specs.declared.script.Kind.TheVariants.{Raw};
ghost use Rattle.usb_xfer.specs.declared.script.DeviceScript.{DeviceScript};
ghost use Rattle.usb_device.specs.declared.state.DeviceState.{DeviceState};
ghost use Rattle.usb_device.specs.Rules.{is_halted, control_rule};
ghost use Rattle.usb_device.specs.Device.{Call, questions_at, is_raw, state_after, used_at, reply_to};
ghost use Rattle.usb_device.specs.Replied.{call_of};
ghost use Rattle.usb_device.specs.Laws.{NoneHalts, CountsCalls};

/// A raw device replies at each address by the number of earlier calls there.
pub fn a_raw_device_counts_calls()
    ensures { (script : DeviceScript) (calls : List Call) (c : Call) → script.kind ≡ Raw → CountsCalls script calls c }
{}

/// So does each other device at an address other than 00, as long as no halt was set.
pub fn a_device_without_halts_counts_calls()
    ensures { (script : DeviceScript) (calls : List Call) (c : Call) → c.address ≢ 0 → NoneHalts calls → CountsCalls script calls c }
{}

/// A halted address stalls, and uses no item.
pub fn a_halted_address_stalls()
    ensures { (script : DeviceScript) (calls : List Call) (c : Call) → c.address ≢ 0 → is_halted (state_after script calls) c.address ≡ true
        → (reply_to script calls c ≡ Stall) × (used_at script (calls ++ c ∷ []) c.address ≡ used_at script calls c.address) }
{}

/// The control transfers of an enumeration are answered by the rules, whatever items there are.
pub fn an_enumeration_uses_no_item()
    ensures { (script : DeviceScript) (calls : List Call) (setup : Setup) (out : List ℕ) → is_raw script.kind ≡ false → length (questions_at 0 calls) < 6
        → reply_to script calls (call_of 0 (Ask setup out)) ≡ (control_rule script (state_after script calls) setup out).reply }
{}

/// The rules of a kind give no more than is wanted. An item's packet may be longer, and then ends its transfer with EOVERFLOW.
pub fn no_more_is_given_than_is_wanted()
    ensures { (script : DeviceScript) (state : DeviceState) (setup : Setup) (out bytes : List ℕ) → (control_rule script state setup out).reply ≡ Packet bytes → length bytes ≤ setup.length }
{}
