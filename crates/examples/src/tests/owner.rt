ghost use Rattle.std.specs.Prelude.{◌≡◌};

use lattice::lends::Lends;

// An owner that lends what it has: a condition over it borrows nothing.
#[derive(Drop)]
pub struct Owner<T: Drop> {
    pub content: T,
}

impl<T: Drop> Lends for Owner<T> {
    type Content = T;

    ghost lent = { λ owner. owner.content };

    fn lend(&self) -> &T {
        &self.content
    }
}
