ghost use Rattle.cuts.specs.Jobs.{TraceLaws};

use crate::job::TraceJob;

impl TraceJob {
    // What else holds of the three conditions: their laws, their replies in words, free places, and a job without processes.
    pub fn laws(&self)
        ensures { TraceLaws self.now }
    {}
}
