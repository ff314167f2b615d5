ghost use Rattle.std.specs.Prelude.{◌≡◌, ◌≤◌, length};

mod calls;

// The most bytes that a text keeps.
pub const LONGEST: usize = 512;

// A text that is put together without asking for memory. What does not fit is cut off.
#[derive(Clone, Copy)]
pub struct Text {
    bytes: [u8; LONGEST],
    len: usize,
    ghost sized: { length bytes ≡ 512 },
    ghost within: { len ≤ 512 },
}
