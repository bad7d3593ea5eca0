//! Judges a recipe text on each line of the input, and prints what it is read as.
//!
//! An accepted text prints `accepted` and its words as they are written; a refused one `refused`, the number and the place.

#![tactic(auto)]

use recipe::Recipe;
use std::io;

fn print_answer(rt: HostRuntime, text: &[u8]) -> io::Result<()> {
    match Recipe::read(text) {
        Ok(recipe) => {
            if recipe.words().is_empty() {
                return println!(rt; "accepted");
            }
            println!(rt; "accepted {recipe}")
        }
        Err(refusal) => { println!(rt; "refused {} {}", refusal.number(), refusal.place()) }
    }
}

fn main(rt: HostRuntime) -> io::Result<()> {
    for line in rt.lines(rt.alloc()) {
        print_answer(rt, line?.as_bytes())?;
    }
    Ok(())
}
