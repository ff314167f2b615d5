ghost use Rattle.std.specs.Prelude.{◌≡◌, ◌<◌, ◌≤◌, replicate, MatchResult};
ghost use Rattle.lattice.specs.Limits.{places, highest};
ghost use Rattle.lattice.specs.Order.{heights_of, at, With};
ghost use Rattle.lattice.specs.Refusals.{no_place_refusal, FirstTooHigh};

use crate::refuse::refuse;
use crate::vector::{HIGHEST, PLACES, Vector};
use refusal::{Refusal, Rule};

impl Vector {
    // The vector with these heights; the first place that is too high is refused.
    pub fn new(heights: [u32; PLACES]) -> Result<Vector, Refusal>
        ensures { MatchResult result (λ v. heights_of v ≡ heights) (λ e. FirstTooHigh heights e) }
    {
        match heights.iter().position(|&height| height > HIGHEST) {
            Some(place) => Err(refuse(Rule::Height, place)),
            None => Ok(Vector { heights }),
        }
    }

    pub fn heights(&self) -> &[u32; PLACES]
        ensures { result.now ≡ heights_of self.now }
    {
        &self.heights
    }

    // The height at a place, if there is such a place.
    pub fn height(&self, place: usize) -> Result<u32, Refusal>
        ensures { MatchResult result (λ h. (place < places) × (h ≡ at self.now place)) (λ e. (places ≤ place) × (e ≡ no_place_refusal place)) }
    {
        self.heights
            .get(place)
            .copied()
            .ok_or(refuse(Rule::Place, place))
    }

    // The vector that has one height everywhere.
    pub(crate) fn level(height: u32) -> Vector
        requires { height ≤ highest }
        ensures { heights_of result ≡ replicate places height }
    {
        Vector {
            heights: [height; PLACES],
        }
    }

    pub(crate) fn at(&self, place: usize) -> u32
        requires { place < places }
        ensures { result ≡ at self.now place }
    {
        self.heights[place]
    }

    pub(crate) fn put(&mut self, place: usize, height: u32)
        requires { (place < places) × (height ≤ highest) }
        ensures { With self.old place height self.new }
    {
        self.heights[place] = height;
    }
}
