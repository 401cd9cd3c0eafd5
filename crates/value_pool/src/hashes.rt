// The hash of texts. It multiplies words of eight bytes and folds the product (Y. Wang, wyhash): which bits of a text reach which
// bits of its hash depends on all bits before them.
ghost use Rattle.std.specs.Prelude.{◌≡◌, ◌+◌, ◌≤◌, length};
ghost use Rattle.value_pool.specs.Hashes.{eight_bytes_at, folded, four_bytes_at, hash_of, last_word};

/// What a hash begins with: digits of pi.
const START: u64 = 0x243f_6a88_85a3_08d3;

/// What words are multiplied by: digits of the golden ratio.
const FACTOR: u64 = 0x9e37_79b9_7f4a_7c15;

// The product of two words, one half of it over the other.
#[tactic(auto, unfolding(crate::specs::Hashes::folded))]
fn folded(a: u64, b: u64) -> u64
    ensures { result ≡ folded a b }
{
    let product = u128::from(a) * u128::from(b);
    (product >> 64) as u64 ^ (product % (1 << 64)) as u64
}

fn four_bytes_at(text: &[u8], at: usize) -> u32
    requires { at + 4 ≤ length text.now }
    ensures { result ≡ four_bytes_at text.now at }
{
    let four = &text[at..at + 4];
    u32::from_le_bytes([four[0], four[1], four[2], four[3]])
}

fn eight_bytes_at(text: &[u8], at: usize) -> u64
    requires { at + 8 ≤ length text.now }
    ensures { result ≡ eight_bytes_at text.now at }
{
    u64::from_le_bytes([
        text[at],
        text[at + 1],
        text[at + 2],
        text[at + 3],
        text[at + 4],
        text[at + 5],
        text[at + 6],
        text[at + 7],
    ])
}

// The last eight bytes, or a word that has all bytes of a shorter text.
#[tactic(auto, unfolding(crate::specs::Hashes::last_word))]
pub(crate) fn last_word(text: &[u8]) -> u64
    ensures { result ≡ last_word text.now }
{
    match *text {
        _ if text.len() >= 8 => eight_bytes_at(text, text.len() - 8),
        _ if text.len() >= 4 => {
            u64::from(four_bytes_at(text, 0))
                + (u64::from(four_bytes_at(text, text.len() - 4)) << 32)
        }
        [] => 0,
        [a] => u64::from(a),
        [a, b] => u64::from(a) + (u64::from(b) << 8),
        _ => u64::from(text[0]) + (u64::from(text[1]) << 8) + (u64::from(text[2]) << 16),
    }
}

/// The hash of a text.
#[tactic(auto, unfolding(crate::specs::Hashes::hash_of))]
pub fn hash(text: &[u8]) -> u32
    ensures { result ≡ hash_of text.now }
{
    let mut hash = START ^ text.len() as u64;
    let (words, _) = text.as_chunks::<8>();
    for word in words {
        hash = folded(hash ^ u64::from_le_bytes(*word), FACTOR);
    }
    (folded(hash ^ last_word(text), FACTOR) % (1 << 32)) as u32
}
