ghost use Rattle.std.specs.Prelude.{◌≡◌, Ok, Err, true, MatchOption};
ghost use Rattle.commands.specs.Words.{all_digits};

use std::str;
use std::str::FromStr;

// The number that a word of digits alone writes, if it fits its type.
pub(crate) fn number<T: FromStr>(word: &[u8]) -> Option<T>
where
    T::Err: Drop,
    ensures { MatchOption result (all_digits word.now ≡ true → (e : T.Err) × T.from_str_gives word.now (Err e)) (λ v. (all_digits word.now ≡ true) × T.from_str_gives word.now (Ok v)) }
{
    // No sign may stand in front, which `parse` takes.
    if !word.iter().all(u8::is_ascii_digit) {
        return None;
    }
    // Digits are ASCII, and so UTF-8, which is proved.
    let digits = unsafe { str::from_utf8_unchecked(word) };
    digits.parse().ok()
}
