//! Maps from one kind to another that keep the ends, joins and meets.

ghost use Rattle.std.specs.Prelude.{◌≡◌};
ghost use Rattle.lattice.specs.Morphisms.{Morphism};

use lattice::Kind;

/// A reading: it takes each value of one kind to a value of another, and keeps the ends, joins and meets.
pub trait Reading {
    /// The kind that is read.
    type Source: Kind;

    /// The kind that is given.
    type Target: Kind;

    /// What a value is read as.
    ghost image: { Self → Self.Source → Self.Target };

    /// What the weight is read as.
    fn read(&self, weight: Self::Source) -> Self::Target
        ensures { result ≡ image self.now weight };

    /// Shows that the reading keeps the ends, all joins and all meets.
    fn keeps_all(&self)
        ensures { Morphism Self.Source.Kind.operations Self.Target.Kind.operations (image self.now) }
    {}

    ghost morphism: { (f : Self) → Morphism Self.Source.Kind.operations Self.Target.Kind.operations (image f) };
}

// Four functions, and not two over a side: each says one of the four facts that a reading owes, in that fact's own words.

/// Reads the lowest value: it is the lowest.
pub fn read_lowest<R: Reading>(reading: &R) -> R::Target
    ensures value { result ≡ R.Reading.image reading.now R.Source.Kind.operations.lowest }
    ensures same { result ≡ R.Target.Kind.operations.lowest }
{
    reading.read(R::Source::lowest())
}

/// Reads the highest value: it is the highest.
pub fn read_highest<R: Reading>(reading: &R) -> R::Target
    ensures value { result ≡ R.Reading.image reading.now R.Source.Kind.operations.highest }
    ensures same { result ≡ R.Target.Kind.operations.highest }
{
    reading.read(R::Source::highest())
}

/// Reads the join of two values: it is the join of what they are read as.
pub fn read_join<R: Reading>(reading: &R, x: R::Source, y: R::Source) -> R::Target
    ensures value { result ≡ R.Reading.image reading.now (R.Source.Kind.operations.join x y) }
    ensures same { result ≡ R.Target.Kind.operations.join (R.Reading.image reading.now x) (R.Reading.image reading.now y) }
{
    reading.keeps_all();
    reading.read(x.join(y))
}

/// Reads the meet of two values: it is the meet of what they are read as.
pub fn read_meet<R: Reading>(reading: &R, x: R::Source, y: R::Source) -> R::Target
    ensures value { result ≡ R.Reading.image reading.now (R.Source.Kind.operations.meet x y) }
    ensures same { result ≡ R.Target.Kind.operations.meet (R.Reading.image reading.now x) (R.Reading.image reading.now y) }
{
    reading.keeps_all();
    reading.read(x.meet(y))
}
