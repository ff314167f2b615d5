ghost use Rattle.std.specs.Prelude.{◌≡◌, take};
ghost use Rattle.payload.specs.Marks.{wanted_by, width_of};

use crate::kinds::{Code, Payload, Scan};
use crate::wish::Wish;

// The most bytes that a payload has.
pub const WIDEST: usize = 4;

// Whether the wish wants the payload in the first bytes: one function for every kind of 1 to 4 bytes.
pub fn mark<P: Payload>(wish: &P::Wish, bytes: &[u8; WIDEST]) -> bool
    ensures { result ≡ P.wanted wish.now (take P.WIDTH bytes.now) }
{
    P::meets(wish, &bytes[..P::size()])
}

impl Wish {
    // An arm for each kind: which one a job has is known only when its file is read, so no type parameter can say it.

    // Whether this wish, of either kind, wants the payload in the first bytes.
    pub fn marks(&self, bytes: &[u8; WIDEST]) -> bool
        ensures { result ≡ wanted_by self.now bytes.now }
    {
        match self {
            Wish::Code(wish) => mark::<Code>(wish, bytes),
            Wish::Scan(wish) => mark::<Scan>(wish, bytes),
        }
    }

    // How wide a payload of the wish's kind is.
    pub fn width(&self) -> usize
        ensures { result ≡ width_of self.now }
    {
        match self {
            Wish::Code(_) => Code::size(),
            Wish::Scan(_) => Scan::size(),
        }
    }
}
