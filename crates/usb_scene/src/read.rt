//! Reads a scene, line by line.
ghost use Rattle.std.specs.Prelude.{◌≡◌, ◌≤◌, length, true, None, IfOk};
ghost use Rattle.usb_text.specs.Lines.{without_return};
ghost use Rattle.usb_text.specs.Words.{words};
ghost use Rattle.usb_statement.specs.Statements.{keyword_of, keyword_said};
ghost use Rattle.usb_scene.specs.Rules.{may_stand, statement_cause};
ghost use Rattle.usb_scene.specs.WellFormed.{IsWellFormed};
ghost use Rattle.usb_scene.specs.Read.{line_words, in_place, is_header, words_read, plain_read, scene_of, LineGives, SceneGives};

use crate::cause::Cause;
use crate::draft::Draft;
use crate::rules::may_stand;
use crate::scene::Scene;
use std::alloc::Global;
use usb_statement::{Statement, read_keyword, read_statement};
use usb_text::{are_plain, is_text, next_line, next_word, without_return};

/// Why a line was not read.
#[derive(Clone, Copy)]
pub enum LineFault {
    Bad(Cause),
    Memory,
}

/// Why a scene was not read: its first bad line with the first cause against it, or want of memory.
#[derive(Clone, Copy, Debug)]
pub enum SceneFault {
    Bad { line: u32, cause: Cause },
    Memory,
}

fn is_header(line: &[u8]) -> bool
    ensures { result ≡ is_header (words line.now) }
{
    let Some((scene, line)) = next_word(line) else {
        return false;
    };
    match next_word(line) {
        Some((version, line)) => {
            next_word(line).is_none() && is_text(scene, "scene") && is_text(version, "1")
        }
        None => false,
    }
}

// The statement on a line, by its first word and the line after it, where there is no cause against it.
#[tactic(auto, using(crate::proofs::Placed::place_said))]
fn checked(alloc: Global, draft: &Draft, first: &[u8], rest: &[u8]) -> Result<Statement, LineFault>
    ensures exact { LineGives result (in_place draft.now (keyword_of first.now) (words rest.now)) }
    ensures place { IfOk result (λ statement. may_stand draft.now.scene (keyword_said statement) ≡ true) }
    ensures allowed { IfOk result (λ statement. statement_cause draft.now statement ≡ None) }
{
    let Some(keyword) = read_keyword(first) else {
        return Err(LineFault::Bad(Cause::Word));
    };
    if !may_stand(draft.scene(), keyword) {
        return Err(LineFault::Bad(Cause::Word));
    }
    match read_statement(alloc, keyword, rest) {
        Ok(Some(statement)) => match draft.cause(&statement) {
            None => Ok(statement),
            Some(cause) => Err(LineFault::Bad(cause)),
        },
        Ok(None) => Err(LineFault::Bad(Cause::Form)),
        Err(_) => Err(LineFault::Memory),
    }
}

fn read_words(
    alloc: Global,
    reading: Option<Draft>,
    number: u32,
    line: &[u8],
) -> Result<Option<Draft>, LineFault>
    ensures { LineGives result (words_read reading number (words line.now)) }
{
    let Some((first, rest)) = next_word(line) else {
        return Ok(reading);
    };
    match reading {
        None => {
            if is_header(line) {
                Ok(Some(Draft::empty(alloc)))
            } else {
                Err(LineFault::Bad(Cause::Header))
            }
        }
        Some(draft) => {
            let statement = checked(alloc, &draft, first, rest)?;
            match draft.with(alloc, number, statement) {
                Ok(next) => Ok(Some(next)),
                Err(_) => Err(LineFault::Memory),
            }
        }
    }
}

fn read_line(
    alloc: Global,
    reading: Option<Draft>,
    number: u32,
    line: &[u8],
) -> Result<Option<Draft>, LineFault>
    ensures { LineGives result (plain_read reading number (line_words (without_return line.now))) }
{
    let line = without_return(line);
    if are_plain(line) {
        read_words(alloc, reading, number, line)
    } else {
        Err(LineFault::Bad(Cause::Byte))
    }
}

/// The scene that the bytes are, or their first bad line with the first cause against it.
#[tactic(auto, using(crate::proofs::Reading::read_on, crate::proofs::Reading::read_bad, crate::proofs::Reading::read_end))]
pub fn read_scene(alloc: Global, bytes: &[u8]) -> Result<Scene, SceneFault>
    requires { length bytes.now ≤ 1048576 }
    ensures exact { SceneGives result (scene_of bytes.now) }
    ensures well_formed { IfOk result IsWellFormed }
{
    let mut reading: Option<Draft> = None;
    let mut line: u32 = 0;
    let mut rest = bytes;
    while !rest.is_empty() {
        let (text, behind) = next_line(rest);
        line += 1;
        match read_line(alloc, reading, line, text) {
            Ok(next) => reading = next,
            Err(LineFault::Bad(cause)) => return Err(SceneFault::Bad { line, cause }),
            Err(LineFault::Memory) => return Err(SceneFault::Memory),
        }
        rest = behind;
    }
    match reading {
        Some(draft) => Ok(draft.into_scene()),
        None => Err(SceneFault::Bad {
            line: line.max(1),
            cause: Cause::Header,
        }),
    }
}
