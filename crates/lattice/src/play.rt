ghost use Rattle.lattice.specs.Calls.{Played};

use crate::board::Board;
use crate::call::Call;
use crate::condition::Condition;

// Makes the calls, in their order, on a new board that the condition serves.
pub fn play<C: Condition>(condition: &C, calls: &[Call]) -> Board
    ensures { Played (C.holds condition.now) (C.reply condition.now) calls.now result }
{
    let mut board = Board::new();
    // A list of calls is data: the promise is about the calls that were made, and a closure would have no name in it.
    for call in calls {
        match *call {
            Call::Floor(place, height) => {
                let _ = board.floor(place, height);
            }
            Call::Ceiling(place, height) => {
                let _ = board.ceiling(place, height);
            }
            Call::Run(budget) => {
                let _ = board.run(condition, budget);
            }
            Call::Read => {
                let _ = board.read();
            }
        }
    }
    board
}
