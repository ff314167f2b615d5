ghost use Rattle.std.specs.Prelude.{◌≡◌, MatchResult};
ghost use Rattle.lattice.specs.Refusals.{Accepted, Refused};
ghost use Rattle.lattice.specs.Steps.{Fresh, FloorStep, CeilingStep, reopened, reading};
ghost use Rattle.lattice.specs.History.{floor, ceiling, read};
ghost use Rattle.lattice.specs.Calls.{StartsAll, ContinuesAll, BoundCall, RunCall};

use crate::board::{Board, Reading};
use crate::condition::{Condition, Reply};
use crate::refuse::refuse;
use crate::vector::{HIGHEST, PLACES, Vector};
use crate::verdict::{Answer, Verdict};
use refusal::{Refusal, Rule};

// Whether a floor or a ceiling takes the place and the height.
fn admit(place: usize, height: u32) -> Result<(), Refusal>
    ensures { MatchResult result (λ _. Accepted place height) (λ e. Refused place height e) }
{
    if place >= PLACES {
        return Err(refuse(Rule::Place, place));
    }
    if height > HIGHEST {
        return Err(refuse(Rule::Height, place));
    }
    Ok(())
}

impl Verdict {
    // The verdict once the vector has risen.
    fn reopen(self) -> Verdict
        ensures { result ≡ reopened self }
    {
        match self {
            Verdict::Open | Verdict::Found => Verdict::Open,
            Verdict::None => Verdict::None,
        }
    }
}

impl Board {
    pub fn new() -> Board
        ensures fresh { Fresh result }
        ensures promise { StartsAll result }
    {
        Board {
            vector: Vector::level(0),
            ceilings: Vector::level(HIGHEST),
            verdict: Verdict::Open,
            count: 0,
        }
    }

    pub fn floor(&mut self, place: usize, height: u32) -> Result<(), Refusal>
        ensures { BoundCall FloorStep floor place height self.old result self.new }
    {
        admit(place, height)?;
        let before = self.vector.at(place);
        let after = before.max(height);
        let verdict = if after > self.ceilings.at(place) {
            Verdict::None
        } else if after > before {
            self.verdict.reopen()
        } else {
            self.verdict
        };
        self.vector.put(place, after);
        self.verdict = verdict;
        Ok(())
    }

    pub fn ceiling(&mut self, place: usize, height: u32) -> Result<(), Refusal>
        ensures { BoundCall CeilingStep ceiling place height self.old result self.new }
    {
        admit(place, height)?;
        let top = self.ceilings.at(place).min(height);
        if self.vector.at(place) > top {
            self.verdict = Verdict::None;
        }
        self.ceilings.put(place, top);
        Ok(())
    }

    pub fn run<C: Condition>(&mut self, condition: &C, budget: u32) -> Answer
        ensures { RunCall (C.holds condition.now) (C.reply condition.now) budget self.old result self.new }
    {
        match self.verdict {
            Verdict::Found => Answer::Found,
            Verdict::None => Answer::None,
            Verdict::Open => {
                for used in 0..=budget {
                    match condition.probe(&self.vector) {
                        Reply::Holds => {
                            self.verdict = Verdict::Found;
                            return Answer::Found;
                        }
                        Reply::Never => {
                            self.verdict = Verdict::None;
                            return Answer::None;
                        }
                        Reply::Lift((place, height)) => {
                            if height > self.ceilings.at(place) {
                                self.verdict = Verdict::None;
                                return Answer::None;
                            }
                            if used == budget {
                                break;
                            }
                            self.vector.put(place, height);
                            self.count += 1;
                        }
                    }
                }
                Answer::Pending
            }
        }
    }

    pub fn read(&self) -> Reading
        ensures answer { result ≡ reading self.now }
        ensures promise { ContinuesAll (read result) self.now self.now }
    {
        Reading {
            verdict: self.verdict,
            count: self.count,
            vector: self.vector,
        }
    }
}
