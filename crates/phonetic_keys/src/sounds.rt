// Soundex: the code goes once over the bytes and carries the code of the nearest letter.
ghost use Rattle.std.specs.Prelude.{◌≡◌, ◌↔◌, IsNone, [], ◌∷◌, ◌++◌, ℕ, List, IsTrue, map, take, codes};
ghost use Rattle.phonetic_keys.specs.Alphabet.{in_alphabet, letters_of};
ghost use Rattle.phonetic_keys.specs.Carry.{IsCarry, key_to_come, key_with};
ghost use Rattle.phonetic_keys.specs.Soundex.{code_at, letter_code, carried, code_behind, counted_places, soundex_of};

use crate::letters::{is_letter, next_letter};

const CODES: [u8; 26] = *b"01230120022455012623010202";

// The code of a letter, a digit.
#[tactic(auto, unfolding(crate::specs::Soundex::letter_code))]
fn code_of(letter: u8) -> u8
    requires { IsTrue (in_alphabet letter) }
    ensures { result ≡ letter_code letter }
{
    CODES[(letter - b'A') as usize]
}

// The code that is carried behind a letter.
fn carried_behind(last: u8, letter: u8) -> u8
    requires { IsTrue (in_alphabet letter) }
    ensures { result ≡ code_behind last letter }
{
    if letter == b'H' || letter == b'W' {
        last
    } else {
        code_of(letter)
    }
}

// The key so far, and the code of the nearest letter but H and W.
#[derive(Drop)]
struct Carry {
    key: [u8; 4],
    count: usize,
    last: u8,
}

impl Carry {
    fn new(first: u8) -> Carry
        requires { IsTrue (in_alphabet first) }
        ensures carry { IsCarry result }
        ensures last { result.last ≡ code_behind 48 first }
        ensures key { (digits : List ℕ) → key_with result digits ≡ take 4 (first ∷ digits ++ codes "000") }
    {
        Carry {
            key: [first, b'0', b'0', b'0'],
            count: 1,
            last: carried_behind(b'0', first),
        }
    }

    // Appends a code, unless the key is full.
    fn push(&mut self, code: u8)
        requires { IsCarry self.old }
        ensures carry { IsCarry self.new }
        ensures last { self.new.last ≡ self.old.last }
        ensures key { (digits : List ℕ) → key_with self.new digits ≡ key_with self.old (code ∷ digits) }
    {
        if self.count < 4 {
            self.key[self.count] = code;
            self.count += 1;
        }
    }

    // Takes the next letter.
    fn take(&mut self, letter: u8)
        requires letter { IsTrue (in_alphabet letter) }
        requires carry { IsCarry self.old }
        ensures carry { IsCarry self.new }
        ensures key { (cs : List ℕ) → key_to_come self.new cs ≡ key_to_come self.old (letter ∷ cs) }
    {
        let code = code_of(letter);
        if code != b'0' && code != self.last {
            self.push(code);
        }
        self.last = carried_behind(self.last, letter);
    }
}

/// The Soundex key of the letters A to Z of a text, in their order; every other byte is skipped.
/// `None` exactly where there is no letter. The code is that of Knuth, The Art of Computer
/// Programming, volume 3, second edition, chapter 6.
#[inline(never)]
pub fn soundex(text: &[u8]) -> Option<[u8; 4]>
    ensures key { result ≡ soundex_of text.now }
    ensures letter { IsNone result ↔ (letters_of text.now ≡ []) }
{
    let (first, rest) = next_letter(text)?;
    let mut carry = Carry::new(first);
    for byte in rest {
        if is_letter(*byte) {
            carry.take(*byte);
        }
    }
    Some(carry.key)
}

/// Looking back from each place and carrying a code give the same codes.
pub fn carrying()
    ensures { (c : ℕ) (cs : List ℕ) → map (code_at (c ∷ cs)) (counted_places (c ∷ cs)) ≡ carried (code_behind 48 c) cs }
{}
