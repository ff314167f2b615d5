ghost use Rattle.std.specs.Prelude.{◌≡◌, ◌<◌, ◌↔◌, IsTrue};
ghost use Rattle.lattice.specs.First.{Least};
ghost use Rattle.lattice.specs.Order.{at};
ghost use Rattle.gates.specs.Gates.{sides};
ghost use Rattle.gates.specs.Reply.{rival as is_rival, free, reply_to};
ghost use Rattle.gates.specs.Rivals.{Says};
ghost use Rattle.gates.specs.Stable.{Placed, Stable};
ghost use Rattle.gates.specs.Lawfulness;

use crate::gates::Gates;
use lattice::condition::{Condition, Reply};
use lattice::vector::Vector;

impl Gates {
    // Whether every van has a gate.
    fn placed(&self, v: &Vector) -> bool
        ensures { IsTrue result ↔ Placed (sides self.now) (at v.now) }
    {
        let n = self.count;
        v.heights()[..n].iter().all(|&height| (height as usize) < n)
    }

    // Whether van j is a rival of van i at the gate g: one that has passed the gate still counts.
    // That a number is below the count is asked where it is used, here and below: a type for it would be made anew at each step of a walk.
    fn rival(&self, v: &Vector, i: usize, g: usize, j: usize) -> bool
        requires { (i < self.now.count) × ((g < self.now.count) × (j < self.now.count)) }
        ensures { result ≡ is_rival (sides self.now) (at v.now) i g j }
    {
        let gate = &self.gates[g];
        gate.rank(j) < gate.rank(i) && self.vans[j].rank(g) <= v.heights()[j] as usize
    }

    // The first position of van i, from its present one on, where no van is its rival, or the number of gates.
    fn free_position(&self, v: &Vector, i: usize) -> usize
        requires { (i < self.now.count) × (at v.now i < self.now.count) }
        ensures { Least (free (sides self.now) (at v.now) i) (at v.now i) self.now.count result }
    {
        let present = v.heights()[i] as usize;
        // Over the positions and, for each, over the vans by their numbers, by which a gate ranks them too: the first rival leaves for the next position.
        'next: for (past, &gate) in self.vans[i].numbers()[present..].iter().enumerate() {
            let gate = usize::from(gate);
            for j in 0..self.count {
                if self.rival(v, i, gate, j) {
                    continue 'next;
                }
            }
            return present + past;
        }
        self.count
    }
}

impl Condition for Gates {
    ghost holds = { λ m v. Stable (sides m) (at v) };

    ghost reply = { λ m v. reply_to (sides m) (at v) };

    ghost lawful = { Lawfulness.lawful };

    fn probe(&self, v: &Vector) -> Reply
        ensures is { result ≡ reply_to (sides self.now) (at v.now) }
        ensures says { Says (sides self.now) (at v.now) result }
    {
        if !self.placed(v) {
            return Reply::Never;
        }
        for (i, &present) in v.heights()[..self.count].iter().enumerate() {
            let free = self.free_position(v, i);
            if free > present as usize {
                return Reply::Lift((i, free as u32));
            }
        }
        Reply::Holds
    }
}
