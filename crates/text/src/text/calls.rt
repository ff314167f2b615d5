ghost use Rattle.std.specs.Prelude.{◌≡◌, [], ◌∷◌, decimal};
ghost use Rattle.text.specs.Texts.{written, added};

use crate::text::{LONGEST, Text};

impl Text {
    pub fn new() -> Text
        ensures { written result ≡ [] }
    {
        Text {
            bytes: [0; LONGEST],
            len: 0,
        }
    }

    pub fn as_bytes(&self) -> &[u8]
        ensures { result.now ≡ written self.now }
    {
        &self.bytes[..self.len]
    }

    pub fn push(&mut self, byte: u8)
        ensures { written self.new ≡ added (written self.old) (byte ∷ []) }
    {
        if self.len < LONGEST {
            self.bytes[self.len] = byte;
            self.len += 1;
        }
    }

    pub fn push_bytes(&mut self, bytes: &[u8])
        ensures { written self.new ≡ added (written self.old) bytes.now }
    {
        for &byte in bytes {
            self.push(byte);
        }
    }

    // The number in decimal digits.
    pub fn push_number(&mut self, number: u64)
        ensures { written self.new ≡ added (written self.old) (decimal number) }
    {
        let mut digits = [0u8; 20];
        let mut start = digits.len();
        let mut rest = number;
        loop {
            start -= 1;
            digits[start] = b'0' + (rest % 10) as u8;
            rest /= 10;
            if rest == 0 {
                break;
            }
        }
        self.push_bytes(&digits[start..]);
    }
}
