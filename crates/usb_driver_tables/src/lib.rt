//! Tables of cases for the drivers of keyboards, serial ports and printers, with answers by hand.
#![tactic(auto)]

#[cfg(test)]
mod tests;
