use crate::kinds::ScanWish;

// A wish with its kind of payload.
#[derive(Clone, Copy)]
pub enum Wish {
    Code(u8),
    Scan(ScanWish),
}
