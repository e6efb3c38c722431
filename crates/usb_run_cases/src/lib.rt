//! The program's cases: whole scenes with their reports and lists, and texts that are no scenes.
#![tactic(auto)]

#[cfg(test)]
mod tests;
