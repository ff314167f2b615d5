ghost use Rattle.std.specs.Prelude.{◌≡◌, ◌≤◌, length};
ghost use Rattle.std.specs.List.{All};
ghost use Rattle.gates.specs.Orders.{most};

use crate::order::{MOST, Order};

mod calls;
pub mod condition;

// As many gates as vans, with the order of each, in arrays with a count: gates are made without memory of their own, and copied.
#[derive(Clone, Copy)]
pub struct Gates {
    count: usize,
    vans: [Order; MOST],
    gates: [Order; MOST],
    ghost few: { count ≤ most },
    ghost tall: { (length vans ≡ most) × (length gates ≡ most) },
    ghost even: { All (λ o. o.count ≡ count) vans × All (λ o. o.count ≡ count) gates },
}
