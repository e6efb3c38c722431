//! A table's row.

/// A code and its name.
#[derive(Clone, Copy)]
pub struct Row {
    pub code: u32,
    pub name: &'static str,
}
