ghost use Rattle.std.specs.Prelude.{Some};
ghost use Rattle.gates.specs.Orders.{fault_text};

use std::error::Error;
use std::fmt;

// Why an order is refused: there is no such row, or it has not every number below the count once.
#[derive(Clone, Copy, Debug, PartialEq, Eq)]
pub enum OrderFault {
    Row,
    Order,
}

impl fmt::Display for OrderFault {
    ghost output = { λ e. Some (fault_text e) };

    fn fmt<W: fmt::Write>(&self, f: &mut fmt::Formatter<W>) -> fmt::Result {
        f.write_str(match self {
            OrderFault::Row => "there is no such row",
            OrderFault::Order => "not every number below the count once",
        })
    }
}

impl Error for OrderFault {}
