ghost use Rattle.std.specs.Prelude.{◌≡◌, ℕ, ◌+◌, ◌*◌, ◌<◌, ◌≤◌, Bool, ◌&&◌, List, length, ◌==◌};
ghost use Rattle.payload.specs.Kinds.{pair_at, code_wanted, code_wish, scan_wanted, scan_wish, of_width};
ghost use Rattle.std.proofs.Common.{rules};

// A kind of payload: its width in the file, the form of its wish, and which payloads a wish wants.
pub trait Payload {
    const WIDTH: usize;

    ghost WIDTH: { ℕ };

    type Wish;

    // The wish that so many bytes of the file state.
    ghost stated: { List ℕ → Self.Wish };

    // Which payloads a wish wants.
    ghost wanted: { Self.Wish → List ℕ → Bool };

    fn size() -> usize
        ensures { result ≡ WIDTH }
    {
        Self::WIDTH
    }

    // The wish in a part of the file; nothing if the part has another width.
    fn wish(part: &[u8]) -> Option<Self::Wish>
        ensures { result ≡ of_width WIDTH stated part.now };

    // Whether the wish wants a payload of the kind's width; bytes of another width are none.
    fn meets(wish: &Self::Wish, part: &[u8]) -> bool
        ensures { result ≡ (length part.now == WIDTH) && wanted wish.now part.now };

    ghost narrow: { (1 ≤ WIDTH) × (WIDTH ≤ 4) };
}

pub struct Code;

impl Payload for Code {
    const WIDTH: usize = 1;

    type Wish = u8;

    ghost WIDTH = { 1 };

    ghost stated = { code_wish };

    ghost wanted = { code_wanted };

    ghost narrow = { Prim.search rules };

    fn wish(part: &[u8]) -> Option<u8> {
        match *part {
            [code] => Some(code),
            _ => None,
        }
    }

    fn meets(wish: &u8, part: &[u8]) -> bool {
        Self::wish(part).is_some_and(|code| code == *wish)
    }
}

// The stop, and the most parcels left.
#[derive(Clone, Copy)]
pub struct ScanWish {
    pub stop: u16,
    pub parcels: u16,
}

pub struct Scan;

impl Payload for Scan {
    const WIDTH: usize = 4;

    type Wish = ScanWish;

    ghost WIDTH = { 4 };

    ghost stated = { scan_wish };

    ghost wanted = { scan_wanted };

    ghost narrow = { Prim.search rules };

    fn wish(part: &[u8]) -> Option<ScanWish> {
        match *part {
            [a, b, c, d] => Some(ScanWish {
                stop: u16::from_be_bytes([a, b]),
                parcels: u16::from_be_bytes([c, d]),
            }),
            _ => None,
        }
    }

    fn meets(wish: &ScanWish, part: &[u8]) -> bool {
        Self::wish(part).is_some_and(|scan| {
            scan.stop == wish.stop && scan.parcels <= wish.parcels
        })
    }
}
