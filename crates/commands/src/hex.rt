ghost use Rattle.std.specs.Prelude.{◌≡◌, ℕ, ◌<◌, true, false, List, MatchOption};
ghost use Rattle.commands.specs.Words.{Spells, Decoded, is_hex, hex_value};

// What a hexadecimal digit stands for.
fn digit(byte: u8) -> Option<u8>
    ensures { MatchOption result (is_hex byte ≡ false) (λ v. (is_hex byte ≡ true) × (v ≡ hex_value byte) × (v < 16)) }
{
    char::from(byte).to_digit(16).map(|digit| digit as u8)
}

// The bytes that a word writes, two digits for each, put into the memory as far as it reaches; nothing if it writes none.
// Their number, as a read returns it: the memory is the caller's, who goes on with it.
pub fn decode(word: &[u8], memory: &mut [u8]) -> Option<usize>
    ensures { MatchOption result ((bytes : List ℕ) → Spells word.now bytes → ⊥) (λ n. Decoded word.now n memory.new) }
{
    let (pairs, odd) = word.as_chunks::<2>();
    if !odd.is_empty() {
        return None;
    }
    for (i, [high, low]) in pairs.iter().enumerate() {
        let byte = digit(*high)? * 16 + digit(*low)?;
        if i < memory.len() {
            memory[i] = byte;
        }
    }
    Some(pairs.len().min(memory.len()))
}
