// The letters of a text.
ghost use Rattle.std.specs.Prelude.{◌≡◌, [], ◌∷◌, IsTrue, MatchOption};
ghost use Rattle.phonetic_keys.specs.Alphabet.{in_alphabet, letters_of};

pub(crate) fn is_letter(byte: u8) -> bool
    ensures { result ≡ in_alphabet byte }
{
    byte.is_ascii_uppercase()
}

/// The first letter of a text, and what follows it.
pub(crate) fn next_letter(text: &[u8]) -> Option<(u8, &[u8])>
    ensures { MatchOption result (letters_of text.now ≡ []) (λ found. IsTrue (in_alphabet found.0) × (letters_of text.now ≡ found.0 ∷ letters_of found.1.now)) }
{
    for (i, byte) in text.iter().enumerate() {
        if is_letter(*byte) {
            return Some((*byte, &text[i + 1..]));
        }
    }
    None
}
