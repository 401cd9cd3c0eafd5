// The rules of NYSIIS on a few letters in a row, 0 where there is none.
ghost use Rattle.std.specs.Prelude.{◌≡◌, ◌<◌};
ghost use Rattle.phonetic_keys.specs.Alphabet.{in_vowels};
ghost use Rattle.phonetic_keys.specs.Nysiis.{body_rule, end_rule, front_rule, three_letters};
ghost use Rattle.phonetic_keys.specs.Walks.{KeepsLetters};

/// Three letters in a row.
#[derive(Clone, Copy)]
pub(crate) struct Three {
    pub(crate) here: u8,
    pub(crate) next: u8,
    pub(crate) later: u8,
}

fn in_row(here: u8, next: u8, later: u8) -> Three
    ensures { result ≡ three_letters here next later }
{
    Three { here, next, later }
}

fn is_vowel(letter: u8) -> bool
    ensures { result ≡ in_vowels letter }
{
    letter == b'A' || letter == b'E' || letter == b'I' || letter == b'O' || letter == b'U'
}

// The front of a text.
#[tactic(auto, unfolding(crate::specs::Nysiis::front_rule))]
pub(crate) fn front_of(p: u8, q: u8, r: u8) -> Three
    ensures value { result ≡ front_rule p q r }
    ensures places { 0 < p → KeepsLetters p q r result }
{
    if p == b'M' && q == b'A' && r == b'C' {
        in_row(b'M', b'C', b'C')
    } else if p == b'K' && q == b'N' {
        in_row(b'N', b'N', r)
    } else if p == b'K' {
        in_row(b'C', q, r)
    } else if p == b'P' && (q == b'H' || q == b'F') {
        in_row(b'F', b'F', r)
    } else if p == b'S' && q == b'C' && r == b'H' {
        in_row(b'S', b'S', b'S')
    } else {
        in_row(p, q, r)
    }
}

// What two last letters become, 0 where they stay.
#[tactic(auto, unfolding(crate::specs::Nysiis::end_rule))]
pub(crate) fn end_of(x: u8, y: u8) -> u8
    ensures { result ≡ end_rule x y }
{
    if (x == b'E' || x == b'I') && y == b'E' {
        b'Y'
    } else if (x == b'D' || x == b'R' || x == b'N') && y == b'T' {
        b'D'
    } else if (x == b'R' || x == b'N') && y == b'D' {
        b'D'
    } else {
        0
    }
}

// The first rule that fits at a place behind this letter, 0 at the first place.
#[tactic(auto, unfolding(crate::specs::Nysiis::body_rule))]
pub(crate) fn rewritten(before: u8, p: u8, q: u8, r: u8) -> Three
    ensures value { result ≡ body_rule before p q r }
    ensures places { 0 < p → KeepsLetters p q r result }
{
    if before == 0 {
        in_row(p, q, r)
    } else if p == b'E' && q == b'V' {
        in_row(b'A', b'F', r)
    } else if is_vowel(p) {
        in_row(b'A', q, r)
    } else if p == b'Q' {
        in_row(b'G', q, r)
    } else if p == b'Z' {
        in_row(b'S', q, r)
    } else if p == b'M' {
        in_row(b'N', q, r)
    } else if p == b'K' && q == b'N' {
        in_row(b'N', q, r)
    } else if p == b'K' {
        in_row(b'C', q, r)
    } else if p == b'S' && q == b'C' && r == b'H' {
        in_row(b'S', b'S', b'S')
    } else if p == b'P' && q == b'H' {
        in_row(b'F', b'F', r)
    } else if p == b'H' && (!is_vowel(before) || !is_vowel(q)) {
        in_row(before, q, r)
    } else if p == b'W' && is_vowel(before) {
        in_row(before, q, r)
    } else {
        in_row(p, q, r)
    }
}
