ghost use Rattle.std.specs.Prelude.{◌≡◌};
ghost use Rattle.cuts.specs.Sides.{lift_or};

use lattice::condition::Reply;

// The lift of a place to the height that a search of it found; without one no vector above can do.
pub(crate) fn lift_to(place: usize, height: Option<u32>) -> Reply
    ensures { result ≡ lift_or place height }
{
    height.map_or(Reply::Never, |height| Reply::Lift((place, height)))
}
