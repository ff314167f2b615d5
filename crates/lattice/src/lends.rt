ghost use Rattle.std.specs.Prelude.{◌≡◌};

// What lends a content, as a reference to it does, or an owner that a condition keeps. A condition over any lender can own
// what it is about, where one over a reference borrows it.
pub trait Lends {
    type Content;

    ghost lent: { Self → Self.Content };

    fn lend(&self) -> &Self::Content
        ensures { result.now ≡ lent self.now };
}

impl<'a, T> Lends for &'a T {
    type Content = T;

    ghost lent = { λ reference. reference.now };

    fn lend(&self) -> &T {
        *self
    }
}
