//! What reading means.
ghost use Rattle.std.specs.Prelude.{◌≡◌, ◌⊎◌, ℕ, List, Err, Ok};
ghost use Rattle.usb_scene.specs.declared.scene.Scene.{Scene};
ghost use Rattle.usb_scene.specs.declared.cause.Cause.{Cause};
ghost use Rattle.usb_scene.specs.Growth.{nothing_said};
ghost use Rattle.usb_scene.specs.Read.{scene_of};
ghost use Rattle.usb_scene.specs.PrintedScene.{AllowedInTurn, printed_text};
ghost use Rattle.usb_statement.specs.declared.statement.Statement.{Statement};
ghost use Rattle.usb_scene.specs.SceneLaws.{IsFirstBad, LacksHeader, HasGoodLines, Said, SaidInTurn, text_of};

/// The line that is reported is the first bad one, with the first cause against it.
pub fn reports_first_bad_line()
    ensures { (bytes : List ℕ) (n : ℕ) (c : Cause) → scene_of bytes ≡ Err (n, c) → IsFirstBad bytes n c ⊎ (LacksHeader bytes n × (c ≡ Cause.Header)) }
{}

/// The first bad line is reported, with the first cause against it.
pub fn first_bad_line_is_reported()
    ensures { (bytes : List ℕ) (n : ℕ) (c : Cause) → IsFirstBad bytes n c ⊎ (LacksHeader bytes n × (c ≡ Cause.Header)) → scene_of bytes ≡ Err (n, c) }
{}

/// What is read has no bad line, and is the scene of its lines.
pub fn reads_good_lines()
    ensures { (bytes : List ℕ) (scene : Scene) → scene_of bytes ≡ Ok scene → HasGoodLines bytes scene }
{}

/// A text without a bad line is read, as the scene of its lines.
pub fn good_lines_are_read()
    ensures { (bytes : List ℕ) (scene : Scene) → HasGoodLines bytes scene → scene_of bytes ≡ Ok scene }
{}

/// A text of lines that are good in turn is read as the scene of these lines.
pub fn text_reads_back()
    ensures { (lines : List Said) (scene : Scene) → SaidInTurn nothing_said 1 lines scene → scene_of (text_of lines) ≡ Ok scene }
{}

/// A scene that is printed from statements, each of which may come where it comes, is read again.
pub fn a_printed_scene_reads_back()
    ensures { (statements : List Statement) (scene : Scene) → AllowedInTurn nothing_said 1 statements scene → scene_of (printed_text statements) ≡ Ok scene }
{}
