//! Examples of byte records that are loaded as weights, and of weights that are stored.

#![tactic(auto)]

#[cfg(test)]
mod tests;
