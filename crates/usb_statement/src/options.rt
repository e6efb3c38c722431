//! The options of an URB, in any order.
ghost use Rattle.std.specs.Prelude.{◌≡◌, IfOk};
ghost use Rattle.usb_text.specs.Words.{words};
ghost use Rattle.usb_statement.specs.Options.{number_option, options_of};

use std::alloc::Global;
use usb_text::{is_text, next_word, number};
use usb_types::{List, Memory};

/// An option of an URB, as it is written.
#[derive(Clone, Copy, Debug, PartialEq)]
pub enum UrbOption {
    Len(u32),
    Again(u32),
    Short,
}

fn number_option(word: &[u8], value: Option<u32>) -> Option<UrbOption>
    ensures { result ≡ number_option word.now value }
{
    let value = value?;
    if is_text(word, "len") {
        Some(UrbOption::Len(value))
    } else if is_text(word, "again") {
        Some(UrbOption::Again(value))
    } else {
        None
    }
}

/// The options that a line's words spell.
pub fn read_options(alloc: Global, line: &[u8]) -> Result<Option<List<UrbOption>>, Memory>
    ensures { IfOk result (λ options. options ≡ options_of (words line.now)) }
{
    let mut options = List::of(Vec::new(alloc));
    let mut rest = line;
    while let Some((word, behind)) = next_word(rest) {
        if is_text(word, "short") {
            options.push(UrbOption::Short)?;
            rest = behind;
        } else {
            let Some((value, others)) = next_word(behind) else {
                return Ok(None);
            };
            match number_option(word, number(value)) {
                Some(option) => options.push(option)?,
                None => return Ok(None),
            }
            rest = others;
        }
    }
    Ok(Some(options))
}
