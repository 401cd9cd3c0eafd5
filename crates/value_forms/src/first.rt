// The first characters of a text.
ghost use Rattle.std.specs.Prelude.{◌≡◌, ◌++◌, IsUtf8};
ghost use Rattle.value_forms.specs.Initials.{first_characters, later_characters};

/// The first `n` characters of a text in UTF-8, or all where there are fewer.
pub fn first_chars(text: &[u8], n: u8) -> &[u8]
    requires { IsUtf8 text.now }
    ensures { result.now ≡ first_characters n text.now }
{
    match str::from_utf8(text) {
        Ok(whole) => {
            let later = without_first(whole, usize::from(n));
            &text[..text.len() - later.len()]
        }
        Err(_) => text,
    }
}

/// What follows the first `n` characters, nothing where there are no more.
pub(crate) fn without_first(text: &str, n: usize) -> &str
    ensures later { result.now ≡ later_characters n text.now }
    ensures whole { text.now ≡ first_characters n text.now ++ result.now }
{
    let mut chars = text.chars();
    for _ in 0..n {
        let _first = chars.next();
    }
    chars.as_str()
}
