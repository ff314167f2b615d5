ghost use Rattle.std.specs.Prelude.{◌≡◌, ℕ, ◌<◌, ◌≤◌, length, slice_index};
ghost use Rattle.lattice.specs.Limits.{places, highest};

mod methods;

pub const PLACES: usize = 32;

pub const HIGHEST: u32 = 1_000_000;

// A height for each place. Clauses see it as this record, since the laws of conditions are for heights that are bounded so;
// a model would show them a bare list.
#[derive(Clone, Copy)]
pub struct Vector {
    heights: [u32; PLACES],
    ghost sized: { length heights ≡ places },
    ghost bounded: { (i : ℕ) → i < places → slice_index heights i ≤ highest },
}
