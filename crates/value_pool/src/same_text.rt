// Texts compared by their last words, which have all bytes of a short text.
ghost use Rattle.std.specs.Prelude.{◌≡◌, bytes_eq};
ghost use Rattle.value_pool.specs.Hashes.{last_word};

/// How many bytes a word has.
const WORD_BYTES: usize = 8;

/// Whether two texts with these last words are equal.
pub(crate) fn same_text(held: &[u8], held_last: u64, text: &[u8], last: u64) -> bool
    requires held { held_last ≡ last_word held.now }
    requires text { last ≡ last_word text.now }
    ensures { result ≡ bytes_eq held.now text.now }
{
    if held_last != last || held.len() != text.len() {
        return false;
    }
    held.len() <= WORD_BYTES || held == text
}
