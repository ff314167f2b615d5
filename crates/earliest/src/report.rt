use gates::gates::Gates;
use lattice::board::Board;
use lattice::verdict::Verdict;
use std::fmt;

// Vans at gates, and the board of the search that places them.
#[derive(Drop)]
pub struct Placing {
    pub gates: Gates,
    pub board: Board,
}

// The verdict, and after found a line for each van: its place and its gate.
impl fmt::Display for Placing {
    fn fmt<W: fmt::Write>(&self, f: &mut fmt::Formatter<W>) -> fmt::Result {
        let reading = self.board.read();
        write!(f, "M {}", reading.verdict)?;
        if reading.verdict != Verdict::Found {
            return Ok(());
        }
        let heights = reading.vector.heights().iter();
        for (van, &height) in heights.enumerate().take(self.gates.count()) {
            match self.gates.gate_at(van, height as usize) {
                Some(gate) => write!(f, "\n{van} {gate}")?,
                None => write!(f, "\n{van} -")?,
            }
        }
        Ok(())
    }
}
