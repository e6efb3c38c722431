//! Bytes that a line gives in words of data.
ghost use Rattle.usb_types.specs.Limits.{most_kept};
ghost use Rattle.std.specs.Prelude.{◌≡◌, ◌≤◌, ◌++◌, length, take, IfOk, OnOk};
ghost use Rattle.usb_text.specs.Words.{words};
ghost use Rattle.usb_statement.specs.Kept.{kept_data, some_data};
ghost use Rattle.usb_statement.specs.Statements.{sent_of};

use std::alloc::Global;
use usb_text::{data_bytes, next_word};
use usb_types::limits::MOST_KEPT;
use usb_types::{Buf, Memory};

// Adds bytes as far as the most that is kept.
#[tactic(auto, using(crate::proofs::Kept::take_onto))]
fn keep(all: &mut Buf, bytes: &[u8]) -> Result<(), Memory>
    requires { length all.now ≤ most_kept }
    ensures { OnOk result (all.new ≡ take most_kept (all.old ++ bytes.now)) }
{
    let room = (MOST_KEPT - all.bytes().len()).min(bytes.len());
    all.append(&bytes[..room])
}

/// The bytes of the words of data in a line.
pub fn kept(alloc: Global, line: &[u8]) -> Result<Option<Buf>, Memory>
    ensures { IfOk result (λ bytes. bytes ≡ kept_data (words line.now)) }
{
    let mut all = Buf::of(Vec::new(alloc));
    let mut rest = line;
    while let Some((word, behind)) = next_word(rest) {
        match data_bytes(alloc, word)? {
            Some(bytes) => keep(&mut all, bytes.bytes())?,
            None => return Ok(None),
        }
        rest = behind;
    }
    Ok(Some(all))
}

/// The same, where the line has words.
pub fn some_kept(alloc: Global, line: &[u8]) -> Result<Option<Buf>, Memory>
    ensures { IfOk result (λ bytes. bytes ≡ some_data (words line.now)) }
{
    if next_word(line).is_none() {
        return Ok(None);
    }
    kept(alloc, line)
}

/// What a line gives to send, if it has words of data.
pub fn sent(alloc: Global, line: &[u8]) -> Result<Option<Option<Buf>>, Memory>
    ensures { IfOk result (λ sent. sent ≡ sent_of (words line.now)) }
{
    if next_word(line).is_none() {
        return Ok(Some(None));
    }
    Ok(kept(alloc, line)?.map(|bytes| Some(bytes)))
}
