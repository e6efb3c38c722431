//! What a call asks for is what the table of calls has at its number, and what its line said.
ghost use Rattle.std.specs.Prelude.{◌≡◌, ℕ, List, Option, true, None};
ghost use Rattle.std.specs.List.{Contains};
ghost use Rattle.usb_types.specs.Table.{Entry};
ghost use Rattle.usb_types.specs.Rows.{call_table};
ghost use Rattle.usb_statement.specs.declared.keyword.UrbCall.{UrbCall};
ghost use Rattle.usb_statement.specs.declared.keyword.BareCall.{BareCall};
ghost use Rattle.usb_statement.specs.declared.interface_call.InterfaceCall.{InterfaceCall};
ghost use Rattle.usb_statement.specs.Sayable.{IsCarried};
ghost use Rattle.usb_scene.specs.declared.scene.Scene.{Scene};
ghost use Rattle.usb_scene.specs.declared.scene.Call.{Call};
ghost use Rattle.usb_scene.specs.declared.scene.Target.{Target};
ghost use Rattle.usb_scene.specs.declared.operation.Operation.TheVariants.{Submit, Interface};
ghost use Rattle.usb_scene.specs.WellFormed.{IsBuilt};
ghost use Rattle.usb_scene.specs.Rules.{carries_within};
ghost use Rattle.usb_scene.specs.Growth.{plain_call, urb_call_code, bare_call_code, interface_call};
ghost use Rattle.usb_scene.specs.Operation.{operation_of, number_of, operation_text, is_built, urb_operation, bare_operation, interface_op};

/// The operation of a call has the number and the word that the table of calls has for it, and is built where the call is.
#[tactic(auto, using(crate::proofs::Operations::number_kept, crate::proofs::Operations::built_kept))]
pub fn a_call_asks_for_what_its_number_says()
    ensures number { (c : Call) → number_of (operation_of c) ≡ c.code }
    ensures word { (row : Entry) (c : Call) → Contains call_table row → c.code ≡ row.code → operation_text (operation_of c) ≡ row.name }
    ensures built { (s : Scene) (c : Call) → IsBuilt s c.code c.target → is_built (operation_of c) ≡ true }
{}

/// The call that a line makes asks for what the line says. One on an interface does so where it carries what may be said
/// and passes no limit, and the others always.
#[tactic(auto, using(crate::proofs::Operations::urb_asked, crate::proofs::Operations::bare_asked, crate::proofs::Operations::interface_asked))]
pub fn a_call_asks_for_what_its_line_says()
    ensures submit { (line : ℕ) (on : Target) (setup bytes : Option (List ℕ)) → operation_of (plain_call line 1 on setup bytes) ≡ Submit }
    ensures urb { (line : ℕ) (on : Target) (call : UrbCall) → operation_of (plain_call line (urb_call_code call) on None None) ≡ urb_operation call }
    ensures alone { (line : ℕ) (on : Target) (call : BareCall) → operation_of (plain_call line (bare_call_code call) on None None) ≡ bare_operation call }
    ensures interface { (line : ℕ) (on : Target) (call : InterfaceCall) → IsCarried call → carries_within call ≡ true → operation_of (interface_call line on call) ≡ Interface (interface_op call) }
{}
