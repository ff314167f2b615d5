ghost use Rattle.std.specs.Prelude.{◌≡◌, MatchBool};
ghost use Rattle.lattice.specs.Order.{at};
ghost use Rattle.lattice.specs.declared.condition.Reply.TheVariants.{Never};
ghost use Rattle.cuts.specs.Cuts.{beyond};
ghost use Rattle.cuts.specs.Jobs.{processes, happened};

use crate::job::TraceJob;
use lattice::condition::Reply;
use lattice::vector::Vector;

impl TraceJob {
    // Whether a place has more events in the cut than its process has.
    fn is_beyond(&self, v: &Vector) -> bool
        ensures { result ≡ beyond (processes self.now) (happened self.now) (at v.now) }
    {
        let n = self.trace.processes();
        v.heights()[..n]
            .iter()
            .enumerate()
            .any(|(i, &height)| height > self.trace.total(i))
    }

    // The reply of a condition that holds on no vector beyond the events: "never" there, and else what it finds.
    pub(crate) fn unless_beyond<F: FnOnce() -> Reply>(&self, v: &Vector, find: F) -> Reply
        requires { F.pre find }
        ensures { MatchBool (beyond (processes self.now) (happened self.now) (at v.now)) (result ≡ Never) (F.post find result) }
    {
        if self.is_beyond(v) {
            Reply::Never
        } else {
            find()
        }
    }
}
