//! Laws of statements.
ghost use Rattle.std.specs.Prelude.{◌≡◌, ℕ, List, Some, true};
ghost use Rattle.std.specs.List.{list_all};
ghost use Rattle.usb_text.specs.Lines.{is_plain};
ghost use Rattle.usb_text.specs.Written.{AreWords, spaced};
ghost use Rattle.usb_statement.specs.Statements.{keyword_of, keyword_said, statement_of};
ghost use Rattle.usb_statement.specs.Sayable.{IsSayable};
ghost use Rattle.usb_statement.specs.Printed.{keyword_text, words_said, line_said};
ghost use Rattle.usb_statement.specs.declared.keyword.Keyword.{Keyword};
ghost use Rattle.usb_statement.specs.declared.statement.Statement.{Statement};

/// A first word that is printed is read again.
pub fn keyword_reads_back()
    ensures { (keyword : Keyword) → keyword_of (keyword_text keyword) ≡ Some keyword }
{}

/// A statement that was read from a line can be printed.
pub fn a_read_line_can_be_printed()
    ensures { (keyword : Keyword) (texts : List (List ℕ)) (statement : Statement) → statement_of keyword texts ≡ Some statement → IsSayable statement }
{}

/// A statement that is printed is read again.
pub fn statement_reads_back()
    ensures { (statement : Statement) → IsSayable statement → statement_of (keyword_said statement) (words_said statement) ≡ Some statement }
{}

/// The line that is printed for a statement is words, of bytes that may stand in a line.
pub fn a_printed_line_is_words()
    ensures words { (statement : Statement) → IsSayable statement → AreWords (line_said statement) }
    ensures plain { (statement : Statement) → IsSayable statement → list_all is_plain (spaced (line_said statement)) ≡ true }
{}
