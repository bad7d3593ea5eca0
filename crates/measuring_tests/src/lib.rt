//! Examples of the graphs and weights that the benchmarks measure on, and of the words that ask for them.

#![tactic(auto)]

#[cfg(test)]
mod tests;
