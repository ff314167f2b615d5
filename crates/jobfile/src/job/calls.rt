ghost use Rattle.std.specs.Prelude.{◌≡◌, IfOk};
ghost use Rattle.jobfile.specs.Jobs.{Blank, letter_of_job, places_of, Serves};

use crate::job::Job;
use cuts::conditions::{Channels, Consistent, Watched, condition};
use cuts::job::TraceJob;
use gates::gates::Gates;
use lattice::pair::Pair;
use payload::wish::Wish;
use std::alloc::{AllocError, Global};
use wire::frame::JobKind;

impl Job {
    // A blank job. All memory that a job can come to need is asked for here.
    pub fn new(heap: Global) -> Result<Job, AllocError>
        ensures { IfOk result (λ j. Blank j) }
    {
        let trace = TraceJob::new(heap)?;
        Ok(Job {
            kind: None,
            trace,
            gates: Gates::none(),
        })
    }

    // Makes the job blank.
    pub fn clear(&mut self)
        ensures { Blank self.new }
    {
        let _ = self.trace.begin(0, 0, Wish::Code(0));
        // Gates without vans are blank already.
        if self.gates.count() > 0 {
            self.gates = Gates::none();
        }
        self.kind = None;
    }

    // What the job is about: a trace, or gates; a blank job is about nothing.
    pub fn kind(&self) -> Option<JobKind>
        ensures { result ≡ self.now.kind }
    {
        self.kind
    }

    // The letter of its kind, and - for a blank job.
    pub fn letter(&self) -> char
        ensures { result ≡ letter_of_job self.now }
    {
        self.kind.map_or('-', char::from)
    }

    // How many places the job is about: its processes, or its vans.
    pub fn places(&self) -> usize
        ensures { result ≡ places_of self.now }
    {
        match self.kind {
            Some(JobKind::Trace) => self.trace.trace().processes(),
            Some(JobKind::Gates) => self.gates.count(),
            None => 0,
        }
    }

    pub fn trace_part(&self) -> &TraceJob
        ensures { result.now ≡ self.now.trace }
    {
        &self.trace
    }

    pub fn consistent(&self) -> Consistent<&TraceJob>
        ensures { result.job.now ≡ self.now.trace }
    {
        Consistent { job: &self.trace }
    }

    pub fn watched(&self) -> Watched<&TraceJob>
        ensures { result.job.now ≡ self.now.trace }
    {
        Watched { job: &self.trace }
    }

    pub fn channels(&self) -> Channels<&TraceJob>
        ensures { result.job.now ≡ self.now.trace }
    {
        Channels { job: &self.trace }
    }

    pub fn gates(&self) -> &Gates
        ensures { result.now ≡ self.now.gates }
    {
        &self.gates
    }

    // The job's own condition: that of its trace paired with that of its gates. The part that the kind does not name
    // holds everywhere, so this is the condition of the kind that it names.
    pub fn condition(
        &self,
    ) -> Pair<Pair<Consistent<&TraceJob>, Pair<Watched<&TraceJob>, Channels<&TraceJob>>>, &Gates>
        ensures first { result.first.first.job.now ≡ self.now.trace }
        ensures second { result.first.second.first.job.now ≡ self.now.trace }
        ensures third { result.first.second.second.job.now ≡ self.now.trace }
        ensures gates { result.second.now ≡ self.now.gates }
    {
        let first = condition(&self.trace);
        let second = self.gates();
        Pair { first, second }
    }

    // What the conditions of the job are, by its letter.
    pub fn laws(&self)
        ensures { Serves self.now }
    {}
}
