ghost use Rattle.std.specs.Prelude.{◌≡◌, ℕ, ◌<◌, ◌≤◌, length, take, slice_index, MatchResult};
ghost use Rattle.gates.specs.Orders.{most, position, OrderOf};
ghost use Rattle.gates.specs.Positions.{Ranked};

use crate::fault::OrderFault;
use std::array;

pub const MOST: usize = 16;

// The numbers below `count` in an order, most liked first: the gates in a van's, the vans in a gate's.
// `ranks` has the position of each number, so that two can be compared without a walk.
// Arrays with a count, since `Gates` is made without memory of its own, and copied.
#[derive(Clone, Copy)]
pub struct Order {
    count: usize,
    numbers: [u8; MOST],
    ranks: [u8; MOST],
    ghost few: { count ≤ most },
    ghost wide: { (length numbers ≡ most) × (length ranks ≡ most) },
    ghost whole: { Ranked count (λ p. slice_index numbers p) },
    ghost ranked: { (x : ℕ) → x < count → slice_index ranks x ≡ position count (λ p. slice_index numbers p) x },
}

// 0, 1, 2 and so on.
fn ascending() -> [u8; MOST]
    ensures long { length result ≡ most }
    ensures each { (p : ℕ) → p < most → slice_index result p ≡ p }
{
    array::from_fn(|p| p as u8)
}

impl Order {
    // 0, 1, 2 and so on.
    pub(crate) fn plain(count: usize) -> Order
        requires { count ≤ most }
        ensures count { result.count ≡ count }
        ensures plain { (p : ℕ) → p < count → slice_index result.numbers p ≡ p }
    {
        let numbers = ascending();
        Order {
            count,
            numbers,
            ranks: numbers,
        }
    }

    // These numbers, if they are every number below the count once.
    pub(crate) fn new(count: usize, numbers: &[u8]) -> Result<Order, OrderFault>
        requires { count ≤ most }
        ensures { MatchResult result (λ o. OrderOf count numbers.now × ((p : ℕ) → p < count → slice_index o.numbers p ≡ slice_index numbers.now p) × (o.count ≡ count)) (λ e. (e ≡ OrderFault.Order) × (OrderOf count numbers.now → ⊥)) }
    {
        if numbers.len() != count {
            return Err(OrderFault::Order);
        }
        let mut order = [0; MOST];
        // A number that has not come yet has the rank `count`, as no position is that: an `Option` for each would have to be taken out again.
        let mut ranks = [count as u8; MOST];
        for (p, &number) in numbers.iter().enumerate() {
            let x = usize::from(number);
            if x >= count || usize::from(ranks[x]) < count {
                return Err(OrderFault::Order);
            }
            order[p] = number;
            ranks[x] = p as u8;
        }
        Ok(Order {
            count,
            numbers: order,
            ranks,
        })
    }

    // How many numbers there are.
    pub(crate) fn count(&self) -> usize
        ensures { result ≡ self.now.count }
    {
        self.count
    }

    // The numbers, most liked first.
    pub(crate) fn numbers(&self) -> &[u8]
        ensures { result.now ≡ take self.now.count self.now.numbers }
    {
        &self.numbers[..self.count]
    }

    // The position of a number, which is asked to be below the count: a type for it would be made anew at each step of a walk.
    pub(crate) fn rank(&self, x: usize) -> usize
        requires { x < self.now.count }
        ensures { result ≡ position self.now.count (λ p. slice_index self.now.numbers p) x }
    {
        usize::from(self.ranks[x])
    }
}
