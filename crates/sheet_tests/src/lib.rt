//! Examples of sheets: every call, its refusals and whole stories.

#![tactic(auto)]

// The cases are of one shape, each with its own values, and stand apart so that each can be read by itself.

#[cfg(test)]
mod buffers;
#[cfg(test)]
mod closing;
#[cfg(test)]
mod opening;
#[cfg(test)]
mod reading;
#[cfg(test)]
mod story_calls;
#[cfg(test)]
mod story_tests;
#[cfg(test)]
mod support;
