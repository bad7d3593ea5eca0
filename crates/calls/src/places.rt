//! Work place by place on one buffer of weights.

ghost use Rattle.std.specs.Prelude.{◌≡◌, map, length};
ghost use Rattle.stories.specs.Words.{each};

use filters::Semilattice;
use readings::Reading;

/// Combines each weight with the held one at its place.
pub(crate) fn combine_each<S: Semilattice<K>, K: Copy>(weights: &mut [K], held: &[K])
    requires { length held.now ≡ length weights.old }
    ensures { weights.new ≡ each S.side.combine weights.old held.now }
{
    // Not a `zip`: a proof knows nothing of what a chain after `iter_mut` writes, but with `enumerate` it does.
    for (i, weight) in weights.iter_mut().enumerate() {
        *weight = S::combine(*weight, held[i]);
    }
}

/// Writes the image of each weight.
pub(crate) fn read_each<R: Reading>(reading: &R, weights: &[R::Source], images: &mut [R::Target])
    requires { length images.old ≡ length weights.now }
    ensures { images.new ≡ map (R.image reading.now) weights.now }
{
    // Not a `zip`, as above.
    for (i, image) in images.iter_mut().enumerate() {
        *image = reading.read(weights[i]);
    }
}
