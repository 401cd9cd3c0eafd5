// The words of a command.
ghost use Rattle.std.specs.Prelude.{◌≡◌, ◌<◌, [], length, map, nat_le, slice_index_or, string_bytes};
ghost use Rattle.std.specs.List.{list_all};
ghost use Rattle.link_shell.specs.Words.{is_settings_word, is_short_word};

use link_limits::MOST_NAME_BYTES;
use settings::is_output;

/// The most words that a command lists: the words of `keys`, and the levels of `frontier`.
pub(crate) const MOST_LISTED: usize = 100;

// The word at a place.
#[tactic(auto, using(crate::proofs::Laws::word_there))]
pub(crate) fn word_at(words: &[String], at: usize) -> &str
    requires { at < length words.now }
    ensures { result.now ≡ slice_index_or (map string_bytes words.now) at [] }
{
    words[at].as_str()
}

// Whether a word may name a file or a column.
pub(crate) fn is_short(word: &str) -> bool
    ensures { result ≡ is_short_word word.now }
{
    1 <= word.len() && word.len() <= MOST_NAME_BYTES
}

// Whether a word may name a settings file.
pub(crate) fn is_settings(word: &str) -> bool
    ensures { result ≡ is_settings_word word.now }
{
    is_short(word) && !is_output(word)
}

// Whether each word has at most 255 bytes.
pub(crate) fn are_within(words: &[String]) -> bool
    ensures { result ≡ list_all (λ w. nat_le (length w) MOST_NAME_BYTES) (map string_bytes words.now) }
{
    for word in words {
        if word.as_str().len() > MOST_NAME_BYTES {
            return false;
        }
    }
    true
}
