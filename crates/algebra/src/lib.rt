//! What holds of the filters. Each function does nothing: its contract is a theorem on the definitions that the contracts of the
//! calls cite.

#![tactic(auto)]

ghost use Rattle.lattice.specs.Morphisms.{Morphism};
ghost use Rattle.algebra.specs.Cases.{SmallCases};
ghost use Rattle.algebra.specs.Laws.{AllPassesCombine, DilationAdjoint, OpeningsAbsorb, ClosingsAbsorb, AlternatesAbsorb, EdgesStayBelowEnds, Neighbourhoods, FiltersCommute};

use lattice::Kind;

/// A join pass gives the least weight above those that it combines, and a meet pass the greatest below.
pub fn passes_combine<K: Kind>()
    ensures { AllPassesCombine K.below K.operations }
{}

/// One weighting dilated is below another exactly where it is below the other eroded.
pub fn dilation_is_adjoint<K: Kind>()
    ensures { DilationAdjoint K.below K.operations }
{}

// Openings and closings have a function each, since each contract names its theorem. The proof is one, by the turned order.

/// Openings of any sizes in any order leave what the largest alone leaves.
pub fn openings_absorb<K: Kind>()
    ensures { OpeningsAbsorb K.operations }
{}

/// Closings of any sizes in any order leave what the largest alone leaves.
pub fn closings_absorb<K: Kind>()
    ensures { ClosingsAbsorb K.operations }
{}

/// Alternate filters of sizes that never fall leave what the last alone leaves.
pub fn alternates_absorb<K: Kind>()
    ensures { AlternatesAbsorb K.operations }
{}

/// Where each edge weight is below the weights of both its ends, every filter keeps that so.
pub fn edges_stay_below_ends<K: Kind>()
    ensures { EdgesStayBelowEnds K.below K.operations }
{}

/// Where each vertex has an edge, D1 gives a vertex the join of its own and its neighbours' weights, and E1 the meet.
pub fn neighbourhoods_combine<K: Kind>()
    ensures { Neighbourhoods K.below K.operations }
{}

/// To read a filtered weighting is to filter the weighting read, by every map that keeps the ends, joins and meets.
pub fn filters_commute<K: Kind, L: Kind>()
    ensures { (read : K → L) → Morphism K.Kind.operations L.Kind.operations read → FiltersCommute K.Kind.operations L.Kind.operations read }
{}

/// Small cases of these laws, each from its law alone and not from those of a lattice: a law that says less would not give them.
pub fn small_cases<K: Kind>()
    ensures { SmallCases K.below K.operations }
{}
