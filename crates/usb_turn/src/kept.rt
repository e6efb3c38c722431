//! What a value that is taken in turns has to say of itself.
ghost use Rattle.std.specs.Prelude.{◌≡◌, ℕ, ◌%◌, ◌^◌, List, length};

/// A value that stands for a list of rows, the oldest first. It need not store them.
pub trait Kept: Drop {
    type Row;
    /// What of a value is the same in every turn. No value of it is made.
    type Key;

    /// The value stands for these rows.
    ghost stands: { Self → List Self.Row → Type 0 };

    /// What of the value is the same in every turn.
    ghost key: { Self → Self.Key };

    /// The number of the pass that made the row.
    ghost by: { Self.Row → ℕ };

    /// The row that the pass of this number added in its turn, with which it gives the value back: none, or one.
    ghost newest: { ℕ → Self → List Self.Row };

    /// How many rows the value stands for, modulo 2^64.
    fn rows(&self) -> u64
        ensures { (rows : List Self.Row) → stands self.now rows → result ≡ length rows % 2 ^ 64 };
}
