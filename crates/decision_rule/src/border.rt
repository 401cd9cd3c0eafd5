// The words that choose at the borders of a rule.
ghost use Rattle.std.specs.Prelude.{◌≡◌, ℕ, ◌+◌, ◌*◌, ◌^◌, ◌<◌, slice_index};
ghost use Rattle.rand_chacha.specs.ChaCha.{word_at};

use link_limits::MOST_ROWS;
use rand_chacha::ChaCha20Rng;
use rand_core::SeedableRng;
use rand_core::utils::NextWord;
use std::marker::Model;

// The words of a ChaCha block.
const BLOCK_WORDS: u64 = 16;

// How far the words of two neighbours in A stand apart: 2^17, more than B has rows.
const ROW_WORDS: u64 = 131_072;

/// The border words of a seed: the word of the pair at positions `a` and `b` is word number `a * 2^17 + b` of
/// ChaCha20, stream 0, under the key of the seed's eight bytes, least first, and 24 zeros. The block at hand is kept,
/// and no answer depends on it.
#[derive(Drop)]
pub struct BorderWords {
    seed: u64,
    rng: ChaCha20Rng,
    block: u64,
    words: [u32; 16],
}

impl Model for BorderWords {
    ghost use Rattle.std.specs.Prelude.{◌≡◌, ℕ};
    ghost use Rattle.decision_rule.specs.Border.{IsBlock, border_key};

    ghost Value = { ℕ };

    ghost view = { λ w. w.seed };

    ghost invariant = { λ w. (w.rng.key ≡ border_key w.seed) × (w.rng.stream ≡ 0) × IsBlock w.seed w.block w.words };
}

impl BorderWords {
    ghost use Rattle.std.specs.Prelude.{◌≡◌, ◌<◌};
    ghost use Rattle.decision_rule.specs.Border.{border_word};

    /// The words of a seed.
    pub fn new(seed: u64) -> BorderWords
        ensures { result ≡ seed }
    {
        let mut bytes = [0; 32];
        bytes[..8].copy_from_slice(&seed.to_le_bytes());
        let mut rng = ChaCha20Rng::from_seed(bytes);
        let words = block_of(&mut rng, 0);
        BorderWords {
            seed,
            rng,
            block: 0,
            words,
        }
    }

    /// The word of the pair at positions `a` in A and `b` in B.
    pub fn word(&mut self, a: u32, b: u32) -> u32
        requires a { a < MOST_ROWS }
        requires b { b < MOST_ROWS }
        ensures same { self.new ≡ self.old }
        ensures word { result ≡ border_word self.old a b }
    {
        let place = u64::from(a) * ROW_WORDS + u64::from(b);
        let block = place / BLOCK_WORDS;
        if block != self.block {
            self.words = block_of(&mut self.rng, block);
            self.block = block;
        }
        self.words[(place % BLOCK_WORDS) as usize]
    }
}

/// The words of a block.
fn block_of(rng: &mut ChaCha20Rng, block: u64) -> [u32; 16]
    requires block { block < 2 ^ 40 }
    requires stream { rng.old.stream ≡ 0 }
    ensures key { rng.new.key ≡ rng.old.key }
    ensures stream { rng.new.stream ≡ 0 }
    ensures words { (i : ℕ) → i < 16 → slice_index result i ≡ word_at 10 rng.old.key 0 (block * 16 + i) }
{
    rng.set_word_pos(u128::from(block * BLOCK_WORDS));
    let mut words = [0; 16];
    for i in 0..words.len() {
        words[i] = rng.next_word();
    }
    words
}
