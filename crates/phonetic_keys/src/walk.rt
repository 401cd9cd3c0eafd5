// NYSIIS: the code goes once over the letters, with the letter before and four letters at hand.
ghost use Rattle.std.specs.Prelude.{◌≡◌, ◌↔◌, IsNone, ◌<◌, [], ℕ, List, MatchOption};
ghost use Rattle.phonetic_keys.specs.Alphabet.{letters_of};
ghost use Rattle.phonetic_keys.specs.Nysiis.{body, ended, front, nysiis_of, tail_of};
ghost use Rattle.phonetic_keys.specs.Walks.{KeepsKey, HasNoGaps, StepsOverPlace, Starts, shown, text_of};

use crate::letters::{is_letter, next_letter};
use crate::rewriting::{end_of, front_of, rewritten};
use crate::spelled::{Ending, Nysiis, Spelled};

// The letter before, the letter at the place and the three behind it, 0 where there is none, and the key so far.
#[derive(Drop)]
pub(crate) struct Walk {
    pub(crate) before: u8,
    pub(crate) p: u8,
    pub(crate) q: u8,
    pub(crate) r: u8,
    pub(crate) s: u8,
    pub(crate) key: Spelled,
}

// The first letter of a text, 0 where there is none, and what follows it.
fn letter_or_none(text: &[u8]) -> (u8, &[u8])
    ensures letters { letters_of text.now ≡ shown result.0 (letters_of result.1.now) }
    ensures over { result.0 ≡ 0 → letters_of result.1.now ≡ [] }
{
    match next_letter(text) {
        Some((letter, rest)) => (letter, rest),
        None => (0, text),
    }
}

impl Walk {
    // The walk over a text before its first place, and what follows the letters at hand.
    fn start(text: &[u8]) -> Option<(Walk, &[u8])>
        ensures { MatchOption result (letters_of text.now ≡ []) (λ found. Starts (letters_of text.now) found.0 (letters_of found.1.now)) }
    {
        let (p, rest) = next_letter(text)?;
        let (q, rest) = letter_or_none(rest);
        let (r, rest) = letter_or_none(rest);
        let (s, rest) = letter_or_none(rest);
        let front = front_of(p, q, r);
        let walk = Walk {
            before: 0,
            p: front.here,
            q: front.next,
            r: front.later,
            s,
            key: Spelled {
                letters: [0; 8],
                count: 0,
                last: 0,
            },
        };
        Some((walk, rest))
    }

    // Goes over a place, and takes one more letter, 0 where there is none.
    fn step(&mut self, letter: u8)
        requires { 0 < self.old.p }
        ensures { StepsOverPlace self.old self.new letter }
    {
        let place = rewritten(self.before, self.p, self.q, self.r);
        self.key.spell(place.here);
        self.before = place.here;
        self.p = place.next;
        self.q = place.later;
        self.r = self.s;
        self.s = letter;
    }

    // The rule for the end, where no letter is still to come.
    fn close(&mut self)
        requires { HasNoGaps self.old [] }
        ensures filled { HasNoGaps self.new [] }
        ensures before { self.new.before ≡ self.old.before }
        ensures key { self.new.key ≡ self.old.key }
        ensures text { text_of self.new [] ≡ ended (text_of self.old []) }
    {
        if self.s != 0 {
            let last = end_of(self.r, self.s);
            if last != 0 {
                self.r = last;
                self.s = 0;
            }
        } else if self.r != 0 {
            let last = end_of(self.q, self.r);
            if last != 0 {
                self.q = last;
                self.r = 0;
            }
        } else if self.q != 0 {
            let last = end_of(self.p, self.q);
            if last != 0 {
                self.p = last;
                self.q = 0;
            }
        }
    }

    // The key, where no letter is still to come.
    fn finish(mut self) -> Ending
        requires { HasNoGaps self [] }
        ensures { (all : List ℕ) → KeepsKey all self.key → result ≡ tail_of (body self.before (ended (text_of self [])) all) }
    {
        self.close();
        while self.p != 0 {
            self.step(0);
        }
        self.key.finish()
    }
}

/// The NYSIIS key of the letters A to Z of a text, in their order; every other byte is skipped.
/// `None` exactly where there is no letter. The code is named after R. L. Taft's of 1970; the steps
/// are this project's own.
pub fn nysiis(text: &[u8]) -> Option<Nysiis>
    ensures key { result ≡ nysiis_of text.now }
    ensures letter { IsNone result ↔ (letters_of text.now ≡ []) }
{
    let (mut walk, rest) = Walk::start(text)?;
    for byte in rest {
        if is_letter(*byte) {
            walk.step(*byte);
        }
    }
    Some(walk.finish().key())
}
