//! Tests of the kinds, their records and their readings.

#![tactic(auto)]

#[cfg(test)]
mod tests;
