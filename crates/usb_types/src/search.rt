//! What makes a table, and its search by code and by name.
ghost use Rattle.std.specs.Prelude.{◌≡◌, ◌==◌, option_map, bytes_eq, find};
ghost use Rattle.std.specs.Option.{option_copied};
ghost use Rattle.std.specs.List.{list_any};
ghost use Rattle.usb_types.specs.Table.{IsTable, is_table, entries, clashes, name_at, code_at, entry};

use crate::table::Row;

// Whether the code of a row is not below that of a later one, or their names are one.
fn clash(row: &Row, later: &Row) -> bool
    ensures { result ≡ clashes (entry row.now) (entry later.now) }
{
    later.code <= row.code || row.name == later.name
}

fn clashes(row: &Row, behind: &[Row]) -> bool
    ensures { result ≡ list_any (λ later. clashes (entry row.now) (entry later)) behind.now }
{
    behind.iter().any(|later| clash(row, later))
}

/// Whether codes strictly rise and names are pairwise different.
#[tactic(auto, using(crate::proofs::Seen::list_any_map))]
pub fn check(rows: &[Row]) -> bool
    ensures { result ≡ is_table (entries rows.now) }
{
    let mut rest = rows;
    while let Some((row, behind)) = rest.split_first() {
        if clashes(row, behind) {
            return false;
        }
        rest = behind;
    }
    true
}

fn row_of_code(rows: &[Row], code: u32) -> Option<&Row>
    ensures { option_copied result ≡ find (λ row. row.code == code) rows.now }
{
    rows.iter().find(|row| row.code == code)
}

fn row_of_name<'a>(rows: &'a [Row], name: &str) -> Option<&'a Row>
    ensures { option_copied result ≡ find (λ row. bytes_eq row.name.now name.now) rows.now }
{
    rows.iter().find(|row| row.name == name)
}

/// The name of the row with a code.
#[tactic(auto, using(crate::proofs::Seen::name_at_found))]
pub fn name_of(rows: &[Row], code: u32) -> Option<&'static str>
    requires { IsTable (entries rows.now) }
    ensures { option_map (λ name. name.now) result ≡ name_at (entries rows.now) code }
{
    match row_of_code(rows, code) {
        Some(row) => Some(row.name),
        None => None,
    }
}

/// The code of the row with a name.
#[tactic(auto, using(crate::proofs::Seen::code_at_found))]
pub fn code_of(rows: &[Row], name: &str) -> Option<u32>
    requires { IsTable (entries rows.now) }
    ensures { result ≡ code_at (entries rows.now) name.now }
{
    match row_of_name(rows, name) {
        Some(row) => Some(row.code),
        None => None,
    }
}
