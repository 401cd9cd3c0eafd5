// Texts among others, which are copied together with what stands behind them.
ghost use Rattle.std.specs.Prelude.{◌≡◌, ◌≤◌, ◌+◌, ◌++◌, IfSome, length, slice_range, take};

use std::marker::Model;

/// A text among others, which contracts see alone. What stands behind it may be read with it, so that a short text is copied in one
/// piece of a constant length.
#[derive(Drop)]
pub struct Piece<'t> {
    // The text, and what stands behind it.
    bytes: &'t [u8],
    // How many bytes the text has.
    len: usize,
}

impl<'t> Model for Piece<'t> {
    ghost use Rattle.std.specs.Prelude.{◌≤◌, List, ℕ, length, take};

    ghost Value = { List ℕ };

    ghost view = { λ p. take p.len p.bytes.now };

    ghost invariant = { λ p. p.len ≤ length p.bytes.now };
}

impl<'t> Piece<'t> {
    /// The bytes from one place to another.
    #[inline(always)]
    pub fn within(bytes: &'t [u8], start: usize, end: usize) -> Piece<'t>
        requires ordered { start ≤ end }
        requires within { end ≤ length bytes.now }
        ensures { result ≡ slice_range bytes.now start end }
    {
        Piece {
            bytes: &bytes[start..],
            len: end - start,
        }
    }

    /// The text.
    #[inline(always)]
    pub fn text(self) -> &'t [u8]
        ensures { result.now ≡ self.entry }
    {
        &self.bytes[..self.len]
    }

    /// Puts the text into a room at a place by one copy of `MOST` bytes, and gives the place behind the text. `None` where it is
    /// longer, or fewer bytes stand from its start on.
    #[inline(always)]
    pub fn put<const MOST: usize>(&self, room: &mut [u8], at: usize) -> Option<usize>
        requires { at + MOST ≤ length room.old }
        ensures room { length room.new ≡ length room.old }
        ensures end { IfSome result (λ end. end ≡ at + length self.now) }
        ensures within { IfSome result (λ end. end ≤ at + MOST) }
        ensures text { IfSome result (λ end. take end room.new ≡ take at room.old ++ self.now) }
    {
        if MOST < self.len || self.bytes.len() < MOST {
            return None;
        }
        room[at..at + MOST].copy_from_slice(&self.bytes[..MOST]);
        Some(at + self.len)
    }
}
