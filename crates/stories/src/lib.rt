//! Stories: any calls in order on one sheet, and what holds of all of them.
//!
//! A story is a list of steps, holds, joins, meets, forgets and runs, refused ones too. What each call answers and leaves is said in
//! `specs/Calls.antt`, which the contracts of the sheet's calls cite as the stories do. The functions do nothing: calls of a sheet
//! call them and promise the same.

#![tactic(auto)]

ghost use Rattle.stories.specs.Cases.{SmallStories};
ghost use Rattle.stories.specs.Statements.{CallsAnswered, RefusalsChangeNothing, RunsGoWordByWord, StoriesCommute, StoriesAdjoint, StoriesAbsorb};

use lattice::Kind;
use readings::Reading;

/// What every story of calls owes, for any kind: each call is answered, and a refused one changes nothing; a run does what the calls
/// of its words do; dilation and erosion of what stories leave are adjoint; openings absorb to the largest, closings likewise, and
/// alternate filters of sizes that never fall to the last.
pub fn story_laws<K: Kind>()
    ensures answered { CallsAnswered K.operations }
    ensures unchanged { RefusalsChangeNothing K.operations }
    ensures word_by_word { RunsGoWordByWord K.operations }
    ensures adjoint { StoriesAdjoint K.below K.operations }
    ensures absorb { StoriesAbsorb K.operations }
{}

/// To read and then go through a story is to go through it and then read, with the same answers.
pub fn stories_commute<K: Kind, R: Reading<Source = K>>(reading: &R)
    ensures { StoriesCommute K.Kind.operations R.Target.Kind.operations (R.image reading.now) }
{}

/// Small cases of these statements, each from its statement alone and not from the laws of a lattice: a statement that says less
/// would not give them.
pub fn small_stories<K: Kind, L: Kind>()
    ensures { (read : K → L) → SmallStories K.Kind.below K.Kind.operations L.Kind.operations read }
{}
