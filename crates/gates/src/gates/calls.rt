ghost use Rattle.std.specs.Prelude.{◌≡◌, ℕ, ◌<◌, slice_index};
ghost use Rattle.gates.specs.Gates.{sides, Plain, Started, RowPut, GateAt, GatesLaws};

use crate::fault::OrderFault;
use crate::gates::Gates;
use crate::order::{MOST, Order};
use crate::side::Side;

impl Gates {
    // `count` vans and gates, each with the order 0, 1, 2 and so on; nothing where that is more than there can be.
    pub fn new(count: usize) -> Option<Gates>
        ensures { Started count result }
    {
        (count <= MOST).then(|| Gates::of(Order::plain(count)))
    }

    // No vans and no gates.
    pub fn none() -> Gates
        ensures { Plain 0 result }
    {
        Gates::of(Order::plain(0))
    }

    // As many vans and gates as there are numbers in an order, which is that of each of them.
    fn of(order: Order) -> Gates
        ensures count { (sides result).n ≡ order.count }
        ensures vans { (i p : ℕ) → i < order.count → (sides result).van i p ≡ slice_index order.numbers p }
        ensures gates { (g p : ℕ) → g < order.count → (sides result).gate g p ≡ slice_index order.numbers p }
    {
        Gates {
            count: order.count(),
            vans: [order; MOST],
            gates: [order; MOST],
        }
    }

    // Puts an order, most liked first, in place of row `row` of a side: a van's, of all gates, or a gate's, of all vans.
    pub fn put(&mut self, side: Side, row: usize, order: &[u8]) -> Result<(), OrderFault>
        ensures { RowPut side row order.now self.old result self.new }
    {
        if row >= self.count {
            return Err(OrderFault::Row);
        }
        let order = Order::new(self.count, order)?;
        match side {
            Side::Vans => self.vans[row] = order,
            Side::Gates => self.gates[row] = order,
        }
        Ok(())
    }

    // How many vans there are, and how many gates.
    pub fn count(&self) -> usize
        ensures { result ≡ (sides self.now).n }
    {
        self.count
    }

    // The gate at a position of a van's order.
    pub fn gate_at(&self, van: usize, position: usize) -> Option<usize>
        ensures { GateAt self.now van position result }
    {
        let order = self.vans[..self.count].get(van)?;
        order.numbers().get(position).map(|&gate| usize::from(gate))
    }

    // What else holds of the condition: stability by rivals, free places, and a depot without vans.
    #[tactic(auto, using(crate::specs::Lawfulness::laws))]
    pub fn laws(&self)
        ensures { GatesLaws self.now }
    {}
}
