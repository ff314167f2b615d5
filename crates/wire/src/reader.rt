ghost use Rattle.std.specs.Prelude.{◌≡◌, ◌-◌, ◌<◌, ◌≤◌, ◌++◌, length, drop, MatchOption, ◌==◌};

// What is left of a file of `total` bytes. It is copied, and what has a lifetime and a model can't be, so contracts name
// its fields.
#[derive(Clone, Copy)]
pub struct Reader<'a> {
    total: usize,
    rest: &'a [u8],
    ghost within: { length rest.now ≤ total },
}

impl<'a> Reader<'a> {
    // What is left of a file from a place on.
    pub fn new(file: &'a [u8], start: usize) -> Reader<'a>
        ensures total { result.total ≡ length file.now }
        ensures rest { result.rest.now ≡ drop start file.now }
    {
        let rest = &file[start.min(file.len())..];
        Reader {
            total: file.len(),
            rest,
        }
    }

    // The length of the file.
    pub fn total(&self) -> usize
        ensures { result ≡ self.now.total }
    {
        self.total
    }

    // Where what is left begins.
    pub fn position(&self) -> usize
        ensures { result ≡ self.now.total - length self.now.rest.now }
    {
        self.total - self.rest.len()
    }

    pub fn is_empty(&self) -> bool
        ensures { result ≡ (length self.now.rest.now == 0) }
    {
        self.rest.is_empty()
    }

    // The next bytes, if there are so many; else nothing is taken.
    pub fn take(&mut self, count: usize) -> Option<&'a [u8]>
        ensures total { self.new.total ≡ self.old.total }
        ensures cases { MatchOption result ((length self.old.rest.now < count) × (self.new ≡ self.old)) (λ x. (length x.now ≡ count) × (self.old.rest.now ≡ x.now ++ self.new.rest.now)) }
    {
        let (front, rest) = self.rest.split_at_checked(count)?;
        self.rest = rest;
        Some(front)
    }

    // The next bytes as an array, if there are so many; else nothing is taken.
    pub fn take_array<const N: usize>(&mut self) -> Option<[u8; N]>
        ensures total { self.new.total ≡ self.old.total }
        ensures cases { MatchOption result ((length self.old.rest.now < N) × (self.new ≡ self.old)) (λ x. (length x ≡ N) × (self.old.rest.now ≡ x ++ self.new.rest.now)) }
    {
        let (front, rest) = self.rest.split_first_chunk::<N>()?;
        self.rest = rest;
        Some(*front)
    }
}
