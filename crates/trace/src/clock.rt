ghost use Rattle.std.specs.Prelude.{◌≡◌, ℕ, ◌<◌, ◌≤◌, max, length, replicate};
ghost use Rattle.trace.specs.Clocks.{zeros, merged};

use std::array;

pub const PROCESSES: usize = 16;

// A vector clock: an entry for each process.
#[derive(Clone, Copy)]
pub struct Clock {
    pub entries: [u32; PROCESSES],
    ghost sized: { length entries ≡ 16 },
}

impl Clock {
    pub fn zero() -> Clock
        ensures { result.entries ≡ zeros }
    {
        Clock {
            entries: [0; PROCESSES],
        }
    }

    // Takes the greater of each two entries.
    pub fn merge(&mut self, other: &Clock)
        ensures { self.new.entries ≡ merged self.old.entries other.now.entries }
    {
        self.entries = array::from_fn(|i| self.entries[i].max(other.entries[i]));
    }
}
