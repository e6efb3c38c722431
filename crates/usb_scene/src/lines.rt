//! The lines of a text that have words.
ghost use Rattle.std.specs.Prelude.{◌≡◌, ◌≤◌, ◌++◌, length, IfOk};
ghost use Rattle.usb_text.specs.Lines.{without_return};
ghost use Rattle.usb_text.specs.Words.{words};
ghost use Rattle.usb_scene.specs.Read.{line_words, LineGives, SceneGives};
ghost use Rattle.usb_scene.specs.Split.{numbered, line_added, split_of};

use crate::cause::Cause;
use crate::read::{LineFault, SceneFault};
use std::alloc::Global;
use usb_text::{are_plain, next_line, next_word, without_return};
use usb_types::{Buf, List, Memory};

/// The words of a line, with its number from 1.
#[derive(Drop)]
pub struct Line {
    pub number: u32,
    pub words: List<Buf>,
}

fn words_of(alloc: Global, line: &[u8]) -> Result<List<Buf>, Memory>
    ensures { IfOk result (λ found. found ≡ words line.now) }
{
    let mut found = List::of(Vec::new(alloc));
    let mut rest = line;
    while let Some((word, behind)) = next_word(rest) {
        found.push(Buf::copy(alloc, word)?)?;
        rest = behind;
    }
    Ok(found)
}

#[tactic(auto, using(crate::proofs::Splitting::numbered_none, crate::proofs::Splitting::numbered_some))]
fn add_numbered(lines: List<Line>, number: u32, words: List<Buf>) -> Result<List<Line>, Memory>
    ensures { IfOk result (λ next. next ≡ lines ++ numbered number words) }
{
    let mut lines = lines;
    if !words.items().is_empty() {
        lines.push(Line { number, words })?;
    }
    Ok(lines)
}

fn add_line(
    alloc: Global,
    lines: List<Line>,
    number: u32,
    text: &[u8],
) -> Result<List<Line>, LineFault>
    ensures { LineGives result (line_added lines number (line_words (without_return text.now))) }
{
    let line = without_return(text);
    if !are_plain(line) {
        return Err(LineFault::Bad(Cause::Byte));
    }
    match words_of(alloc, line) {
        Ok(words) => match add_numbered(lines, number, words) {
            Ok(next) => Ok(next),
            Err(_) => Err(LineFault::Memory),
        },
        Err(_) => Err(LineFault::Memory),
    }
}

/// The lines that have words, or the first line with a byte that may not stand in one.
#[tactic(auto, using(crate::proofs::Splitting::split_on, crate::proofs::Splitting::split_bad, crate::proofs::Splitting::split_end))]
pub fn split(alloc: Global, bytes: &[u8]) -> Result<List<Line>, SceneFault>
    requires { length bytes.now ≤ 1048576 }
    ensures { SceneGives result (split_of bytes.now) }
{
    let mut lines = List::of(Vec::new(alloc));
    let mut number: u32 = 0;
    let mut rest = bytes;
    while !rest.is_empty() {
        let (text, behind) = next_line(rest);
        number += 1;
        match add_line(alloc, lines, number, text) {
            Ok(next) => lines = next,
            Err(LineFault::Bad(cause)) => {
                return Err(SceneFault::Bad {
                    line: number,
                    cause,
                });
            }
            Err(LineFault::Memory) => return Err(SceneFault::Memory),
        }
        rest = behind;
    }
    Ok(lines)
}
