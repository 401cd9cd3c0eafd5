// White space at the ends of a text.
ghost use Rattle.std.specs.Prelude.{◌≡◌, ◌-◌, IsTrue, get_or, length};
ghost use Rattle.std.specs.Char.{IsAsciiGraphic};
ghost use Rattle.std.specs.Str.{trim};

// Whether a text begins and ends with visible ASCII.
fn has_visible_ends(text: &[u8]) -> bool
    ensures first { IsTrue result → IsAsciiGraphic (get_or text.now 0 0) }
    ensures last { IsTrue result → IsAsciiGraphic (get_or text.now (length text.now - 1) 0) }
{
    !text.is_empty() && text[0].is_ascii_graphic() && text[text.len() - 1].is_ascii_graphic()
}

/// The text without the white space at both ends. Most texts have none, and their two ends tell.
pub(crate) fn trimmed(text: &str) -> &str
    ensures { result.now ≡ trim text.now }
{
    if has_visible_ends(text.as_bytes()) {
        return text;
    }
    text.trim()
}
