//! Examples of filters: their results on small graphs, their refusals, and the numbers of each law.

#![tactic(auto)]

// The cases are of one shape, each with its own values, and stand apart so that each can be read by itself.

#[cfg(test)]
mod laws;
#[cfg(test)]
mod passes;
#[cfg(test)]
mod refusals;
#[cfg(test)]
mod results;
#[cfg(test)]
mod support;
