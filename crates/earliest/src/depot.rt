use gates::fault::OrderFault;
use gates::gates::Gates;
use gates::side::Side;

const COUNT: usize = 6;

// For each van its order of the gates, most liked first.
const VANS: [[u8; COUNT]; COUNT] = [
    [1, 0, 3, 5, 4, 2],
    [4, 5, 0, 3, 2, 1],
    [5, 4, 3, 2, 1, 0],
    [3, 2, 1, 5, 4, 0],
    [0, 3, 5, 1, 2, 4],
    [0, 4, 1, 5, 2, 3],
];

// For each gate its order of the vans.
const GATES: [[u8; COUNT]; COUNT] = [
    [0, 3, 2, 4, 5, 1],
    [4, 3, 0, 2, 1, 5],
    [2, 4, 3, 5, 1, 0],
    [2, 5, 0, 1, 3, 4],
    [3, 4, 2, 0, 1, 5],
    [1, 2, 0, 3, 4, 5],
];

// The depot that this program places.
pub fn depot() -> Result<Gates, OrderFault> {
    let mut gates = Gates::new(COUNT).ok_or(OrderFault::Row)?;
    for (side, orders) in [(Side::Vans, VANS), (Side::Gates, GATES)] {
        for (row, order) in orders.iter().enumerate() {
            gates.put(side, row, order)?;
        }
    }
    Ok(gates)
}
