//! The words of a command line.
ghost use Rattle.std.specs.Prelude.{◌≡◌, [], ◌∷◌, map, string_bytes};
ghost use Rattle.usb_run.specs.Words.{command_of, small_number};

use usb_text::{are_digits, digits_value, is_text};

/// What is asked of a scene.
#[derive(Clone, Copy)]
pub enum SceneCommand {
    /// `serial`: its run in line order.
    Serial,
    /// `list`: what its devices are found to be.
    List,
}

/// What the program is asked for.
#[derive(Clone, Copy)]
pub enum Command {
    /// One word, and the scene is read.
    Scene(SceneCommand),
    /// `gen N`: how the run of the scene of a number goes.
    Gen(u32),
}

// One to ten decimal digits, whose value is below 2^32.
fn small_number(word: &[u8]) -> Option<u32>
    ensures { result ≡ small_number word.now }
{
    if word.is_empty() || word.len() > 10 || !are_digits(word) {
        return None;
    }
    u32::try_from(digits_value(word)).ok()
}

fn command_named(word: &[u8]) -> Option<Command>
    ensures { result ≡ command_of (word.now ∷ []) }
{
    if is_text(word, "serial") {
        Some(Command::Scene(SceneCommand::Serial))
    } else if is_text(word, "list") {
        Some(Command::Scene(SceneCommand::List))
    } else {
        None
    }
}

fn command_with(word: &[u8], number: &[u8]) -> Option<Command>
    ensures { result ≡ command_of (word.now ∷ number.now ∷ []) }
{
    if is_text(word, "gen") {
        small_number(number).map(Command::Gen)
    } else {
        None
    }
}

/// The command that the words after the program's name ask for, if they are in the word grammar.
pub fn read_command(words: &[String]) -> Option<Command>
    ensures { result ≡ command_of (map string_bytes words.now) }
{
    match words {
        [word] => command_named(word.as_bytes()),
        [word, number] => command_with(word.as_bytes(), number.as_bytes()),
        _ => None,
    }
}
