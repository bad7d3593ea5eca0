//! Recipe texts: the words of a recipe, read from bytes and written back.
//!
//! A recipe is at most 96 words. A filter is a letter and a size, as `O3`; `H` holds a copy of the weights, and `J`, `M` and `F`
//! join it, meet it or forget it. `docs/recipes.md` has the grammar, and the order in which a text is judged.
#![tactic(auto)]

mod drafts;
mod reading;
mod recipes;
mod showing;
mod tokens;
mod turns;
mod words;
mod writing;

pub use reading::MAX_TEXT_LEN;
pub use recipes::Recipe;
pub use turns::Turn;
pub use words::{MAX_SIZE, MAX_WORDS, Word};
