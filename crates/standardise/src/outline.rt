// What texts are told by before they are searched for.
ghost use Rattle.std.specs.Prelude.{◌≡◌, List, ℕ, IsTrue};
ghost use Rattle.standardise.specs.Kept.{may_be};

/// Which bytes texts begin with, and how long they are at most: most texts that are none of them are told by these alone.
#[derive(Drop)]
pub(crate) struct Outline {
    marked: [bool; 256],
    longest: usize,
}

impl Outline {
    /// That of no text.
    pub(crate) fn none() -> Outline {
        Outline {
            marked: [false; 256],
            longest: 0,
        }
    }

    /// That of one text more.
    pub(crate) fn add(&mut self, text: &[u8])
        ensures here { IsTrue (may_be self.new text.now) }
        ensures kept { (other : List ℕ) → IsTrue (may_be self.old other) → IsTrue (may_be self.new other) }
    {
        if text.is_empty() {
            return;
        }
        self.marked[text[0] as usize] = true;
        self.longest = self.longest.max(text.len());
    }

    /// Whether a text may be one of the texts, which is always so of the empty one.
    pub(crate) fn may_be(&self, text: &[u8]) -> bool
        ensures { result ≡ may_be self.now text.now }
    {
        text.is_empty() || (text.len() <= self.longest && self.marked[text[0] as usize])
    }
}
