//! The calls that lines make.
ghost use Rattle.std.specs.Prelude.{◌≡◌, ◌∷◌, [], unwrap_or, IfOk};
ghost use Rattle.usb_types.specs.Table.{code_at};
ghost use Rattle.usb_types.specs.Rows.{call_table};
ghost use Rattle.usb_scene.specs.Growth.{plain_call, urb_call_code, bare_call_code, interface_call_code, carried_bytes, carried_numbers, interface_call};

use crate::scene::{Call, Target};
use std::alloc::Global;
use usb_statement::{BareCall, InterfaceCall, UrbCall};
use usb_types::{Buf, Memory, calls, code_of};

/// A call with one target and no numbers.
pub fn plain_call(
    line: u32,
    code: u32,
    target: Target,
    setup: Option<[u8; 8]>,
    bytes: Option<Buf>,
) -> Call
    ensures { result ≡ plain_call line code target setup bytes }
{
    Call {
        line,
        code,
        target,
        second: None,
        numbers: [0; 4],
        setup,
        bytes,
    }
}

// The number of a call in the table of calls, by its word.
fn call_code(word: &str) -> u32
    ensures { result ≡ unwrap_or (code_at call_table word.now) 0 }
{
    code_of(&calls(), word).unwrap_or(0)
}

#[tactic(auto, using(crate::proofs::CallCodes::submit_number))]
pub fn submit_code() -> u32
    ensures { result ≡ 1 }
{
    call_code("submit")
}

#[tactic(auto, using(crate::proofs::CallCodes::urb_call_number))]
pub fn urb_call_code(call: UrbCall) -> u32
    ensures { result ≡ urb_call_code call }
{
    call_code(call.word())
}

#[tactic(auto, using(crate::proofs::CallCodes::bare_call_number))]
pub fn bare_call_code(call: BareCall) -> u32
    ensures { result ≡ bare_call_code call }
{
    call_code(call.word())
}

#[tactic(auto, using(crate::proofs::CallCodes::interface_call_number))]
fn interface_call_code(call: &InterfaceCall) -> u32
    ensures { result ≡ interface_call_code call.now }
{
    call_code(call.word().text())
}

fn one_byte(alloc: Global, byte: u8) -> Result<Buf, Memory>
    ensures { IfOk result (λ bytes. bytes ≡ byte ∷ []) }
{
    let mut bytes = Buf::of(Vec::new(alloc));
    bytes.append(&[byte])?;
    Ok(bytes)
}

// The bytes that a call on an interface carries, if it has any.
fn carried_bytes(alloc: Global, call: InterfaceCall) -> Result<Option<Buf>, Memory>
    ensures { IfOk result (λ bytes. bytes ≡ carried_bytes call) }
{
    match call {
        InterfaceCall::Led { lights } => Ok(Some(one_byte(alloc, lights)?)),
        InterfaceCall::Write { bytes } => Ok(Some(bytes)),
        InterfaceCall::Coding { .. } => Ok(None),
        InterfaceCall::Control { lines } => Ok(Some(one_byte(alloc, lines)?)),
        InterfaceCall::SendBreak { .. } => Ok(None),
        InterfaceCall::Print { bytes } => Ok(Some(bytes)),
        InterfaceCall::Status | InterfaceCall::SoftReset => Ok(None),
    }
}

// Its numbers in their order, then zeros.
fn carried_numbers(call: &InterfaceCall) -> [u32; 4]
    ensures { result ≡ carried_numbers call.now }
{
    match call {
        InterfaceCall::Coding {
            rate,
            stop,
            parity,
            bits,
        } => [*rate, *stop, *parity, *bits],
        InterfaceCall::SendBreak { ms } => [*ms, 0, 0, 0],
        _ => [0; 4],
    }
}

/// A call on an interface, with what it carries.
pub fn interface_call(
    alloc: Global,
    line: u32,
    target: Target,
    call: InterfaceCall,
) -> Result<Call, Memory>
    ensures { IfOk result (λ made. made ≡ interface_call line target call) }
{
    let code = interface_call_code(&call);
    let numbers = carried_numbers(&call);
    let bytes = carried_bytes(alloc, call)?;
    Ok(Call {
        line,
        code,
        target,
        second: None,
        numbers,
        setup: None,
        bytes,
    })
}
