//! A table's rows are found both ways, and nothing else is.
ghost use Rattle.std.specs.Prelude.{◌≡◌, ◌↔◌, ℕ, List, Some};
ghost use Rattle.std.specs.List.{AllPairs, Contains};
ghost use Rattle.usb_types.specs.Table.{IsTable, entries, name_at, code_at, Entry, Follows};

use crate::table::Row;

/// Rows are a table exactly where each has a greater code than those before it, and another name.
pub fn a_table_rises_and_its_names_differ(rows: &[Row])
    ensures { IsTable (entries rows.now) ↔ AllPairs Follows (entries rows.now) }
{}

/// The code of a code's name is that code.
#[tactic(auto, using(crate::proofs::Exact::code_of_name))]
pub fn code_of_name_of(rows: &[Row], code: u32)
    requires { IsTable (entries rows.now) }
    ensures { (name : List ℕ) → name_at (entries rows.now) code ≡ Some name → code_at (entries rows.now) name ≡ Some code }
{}

/// Each row's name is found by its code, and its code by its name.
#[tactic(auto, using(crate::proofs::Exact::name_at_each, crate::proofs::Exact::code_at_each))]
pub fn each_row_is_found(rows: &[Row])
    requires { IsTable (entries rows.now) }
    ensures name { (e : Entry) → Contains (entries rows.now) e → name_at (entries rows.now) e.code ≡ Some e.name }
    ensures code { (e : Entry) → Contains (entries rows.now) e → code_at (entries rows.now) e.name ≡ Some e.code }
{}

/// A name that is found for a code, and a code that is found for a name, stand in one row.
#[tactic(auto, using(crate::proofs::Exact::name_at_row, crate::proofs::Exact::code_at_row))]
pub fn what_is_found_is_a_row(rows: &[Row])
    ensures name { (e : Entry) → name_at (entries rows.now) e.code ≡ Some e.name → Contains (entries rows.now) e }
    ensures code { (e : Entry) → code_at (entries rows.now) e.name ≡ Some e.code → Contains (entries rows.now) e }
{}
