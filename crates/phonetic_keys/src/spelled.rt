// A key as it is spelled letter by letter: its first letters, its length as far as it matters, its last letter.
ghost use Rattle.std.specs.Prelude.{◌≡◌, ◌≤◌, ℕ, List, take};
ghost use Rattle.phonetic_keys.specs.Nysiis.{IsKey, spelled_on, tail_of, with_ay_joined, without_last_letter};
ghost use Rattle.phonetic_keys.specs.Walks.{KeepsKey};

use std::marker::Model;

/// A NYSIIS key, which contracts see as the list of its one to six letters A to Z.
#[derive(Drop)]
pub struct Nysiis {
    letters: [u8; 8],
    count: usize,
}

impl Model for Nysiis {
    ghost use Rattle.std.specs.Prelude.{◌≤◌, ℕ, List, take};
    ghost use Rattle.phonetic_keys.specs.Nysiis.{IsKey};

    ghost Value = { List ℕ };

    ghost view = { λ n. take n.count n.letters };

    ghost invariant = { λ n. (n.count ≤ 8) × IsKey (take n.count n.letters) };
}

impl Nysiis {
    /// The letters.
    pub fn bytes(&self) -> &[u8]
        ensures all { result.now ≡ self.now }
        ensures letters { IsKey self.now }
    {
        &self.letters[..self.count]
    }
}

// A key of at most eight letters, to which the rules for the end are applied.
#[derive(Drop)]
pub(crate) struct Ending {
    letters: [u8; 8],
    count: usize,
}

impl Model for Ending {
    ghost Value = { List ℕ };

    ghost view = { λ e. take e.count e.letters };

    ghost invariant = { λ e. e.count ≤ 8 };
}

impl Ending {
    // The key as it is.
    pub(crate) fn key(self) -> Nysiis
        requires { IsKey self }
        ensures { result ≡ self }
    {
        let letters = self.letters;
        let count = self.count;
        Nysiis { letters, count }
    }

    // Drops the last letter, if it is this one and not the first.
    fn drop_last(&mut self, letter: u8)
        ensures { self.new ≡ without_last_letter letter self.old }
    {
        if self.count > 1 && self.letters[self.count - 1] == letter {
            self.count -= 1;
        }
    }

    // AY at the end becomes Y.
    fn join_ay(&mut self)
        ensures { self.new ≡ with_ay_joined self.old }
    {
        if self.count > 2
            && self.letters[self.count - 2] == b'A'
            && self.letters[self.count - 1] == b'Y'
        {
            self.letters[self.count - 2] = b'Y';
            self.count -= 1;
        }
    }

    // Keeps the first letters.
    fn cut(&mut self, most: usize)
        ensures { self.new ≡ take most self.old }
    {
        if self.count > most {
            self.count = most;
        }
    }
}

// The first eight letters of a key, the length up to nine, and the last letter.
#[derive(Drop)]
pub(crate) struct Spelled {
    pub(crate) letters: [u8; 8],
    pub(crate) count: usize,
    pub(crate) last: u8,
}

impl Spelled {
    // Appends a letter, if it differs from the last.
    pub(crate) fn spell(&mut self, letter: u8)
        ensures { (all : List ℕ) → KeepsKey all self.old → KeepsKey (spelled_on all letter) self.new }
    {
        if self.last == letter {
            return;
        }
        self.last = letter;
        if self.count < 8 {
            self.letters[self.count] = letter;
            self.count += 1;
        } else {
            self.count = 9;
        }
    }

    // The key after the rules for its end.
    pub(crate) fn finish(self) -> Ending
        ensures { (all : List ℕ) → KeepsKey all self → result ≡ tail_of all }
    {
        let letters = self.letters;
        if self.count > 8 {
            let mut key = Ending { letters, count: 8 };
            key.cut(6);
            return key;
        }
        let mut key = Ending {
            letters,
            count: self.count,
        };
        key.drop_last(b'S');
        key.join_ay();
        key.drop_last(b'A');
        key.cut(6);
        key
    }
}
