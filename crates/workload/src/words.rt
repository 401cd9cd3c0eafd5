// Words of numbers: a syllable for each digit of base 16.
ghost use Rattle.std.specs.Prelude.{◌≡◌, ◌<◌};
ghost use Rattle.workload.specs.People.{syllable, word};

const SYLLABLES: [[u8; 2]; 16] = [
    *b"BA", *b"DE", *b"FI", *b"GO", *b"KU", *b"LA", *b"ME", *b"NI", *b"RO", *b"SU", *b"TA", *b"VE",
    *b"WI", *b"ZO", *b"HA", *b"PE",
];

#[tactic(auto, unfolding(crate::specs::People::syllable))]
fn syllable_of(digit: u8) -> [u8; 2]
    requires { digit < 16 }
    ensures { result ≡ syllable digit }
{
    SYLLABLES[digit as usize]
}

/// The word of a number in two digits.
pub fn word_of_two(number: u8) -> [u8; 4]
    ensures { result ≡ word 2 number }
{
    let [a, b] = syllable_of(number / 16);
    let [c, d] = syllable_of(number % 16);
    [a, b, c, d]
}

/// The word of a number in four digits.
pub fn word_of_four(number: u16) -> [u8; 8]
    ensures { result ≡ word 4 number }
{
    let [a, b, c, d] = word_of_two((number / 256) as u8);
    let [e, f, g, h] = word_of_two((number % 256) as u8);
    [a, b, c, d, e, f, g, h]
}
