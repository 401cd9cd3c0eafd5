// Texts side by side in one region of bytes, and pieces of a list by where each ends.
ghost use Rattle.std.specs.Prelude.{◌≡◌, ◌<◌, ◌≤◌, ◌++◌, ◌+◌, ◌∷◌, [], IfOk, length, OnErr, OnOk, slice_index_or, slice_range};
ghost use Rattle.link_base.specs.Region.{EndsAt, pieces_from, start_at};

use link_texts::{NoMemory, Piece};
use std::alloc::Global;
use std::marker::Model;

/// Texts in one region of bytes, which contracts see as the list of them. No text has memory of its own.
#[derive(Drop)]
pub struct TextRegion {
    bytes: Vec<u8>,
    // Where each text ends among the bytes; it begins where the one before it ends.
    ends: Vec<u32>,
}

impl Model for TextRegion {
    ghost use Rattle.std.specs.Prelude.{List, length, ℕ};
    ghost use Rattle.link_base.specs.Region.{EndsAt, pieces_from};

    ghost Value = { List (List ℕ) };

    ghost view = { λ r. pieces_from r.bytes.items 0 r.ends.items };

    ghost invariant = { λ r. EndsAt (length r.bytes.items) 0 r.ends.items };
}

impl TextRegion {
    /// The region of no texts, which takes no memory.
    pub(crate) fn new(alloc: Global) -> TextRegion
        ensures { result ≡ [] }
    {
        TextRegion {
            bytes: Vec::new(alloc),
            ends: Vec::new(alloc),
        }
    }

    /// The region of no texts, with room for so many of so many bytes together.
    pub fn with_capacity(alloc: Global, texts: usize, bytes: usize) -> Result<TextRegion, NoMemory>
        ensures { IfOk result (λ made. made ≡ []) }
    {
        Ok(TextRegion {
            bytes: Vec::with_capacity(alloc, bytes)?,
            ends: Vec::with_capacity(alloc, texts)?,
        })
    }

    // The same texts in as much memory as they need.
    pub(crate) fn copied(&self, alloc: Global) -> Result<TextRegion, NoMemory>
        ensures { IfOk result (λ made. made ≡ self.now) }
    {
        Ok(TextRegion {
            bytes: Vec::from_slice(alloc, &self.bytes)?,
            ends: Vec::from_slice(alloc, &self.ends)?,
        })
    }

    /// The number of texts.
    pub fn len(&self) -> usize
        ensures { result ≡ length self.now }
    {
        self.ends.len()
    }

    /// Appends a text. A region of more than 4 GiB is want of memory.
    #[inline(always)]
    pub fn push(&mut self, text: &[u8]) -> Result<(), NoMemory>
        ensures ok { OnOk result (self.new ≡ self.old ++ text.now ∷ []) }
        ensures err { OnErr result (self.new ≡ self.old) }
    {
        let end = end_behind(self.bytes.len(), text.len())?;
        self.ends.reserve(1)?;
        self.bytes.extend_from_slice(text)?;
        self.ends.push_reserved(end);
        Ok(())
    }

    /// The text at a place, from 0, as a piece of the region.
    #[inline(always)]
    pub fn piece(&self, at: usize) -> Piece<'_>
        requires { at < length self.now }
        ensures { result ≡ slice_index_or self.now at [] }
    {
        text_in(&self.bytes, &self.ends, at)
    }

    /// The text at a place, from 0.
    pub fn get(&self, at: usize) -> &[u8]
        requires { at < length self.now }
        ensures { result.now ≡ slice_index_or self.now at [] }
    {
        self.piece(at).text()
    }
}

// Where a piece of so many items ends, behind so many others.
pub(crate) fn end_behind(start: usize, items: usize) -> Result<u32, NoMemory>
    ensures { IfOk result (λ end. end ≡ start + items) }
{
    let end = start.saturating_add(items);
    if end > u32::MAX as usize {
        return Err(NoMemory);
    }
    Ok(end as u32)
}

// Where so many pieces end, which is where the next one begins.
fn end_of(ends: &[u32], count: usize) -> usize
    requires { count ≤ length ends.now }
    ensures { result ≡ start_at 0 ends.now count }
{
    if count == 0 {
        0
    } else {
        ends[count - 1] as usize
    }
}

// The items from one place to another.
fn part<T>(items: &[T], start: usize, end: usize) -> &[T]
    requires ordered { start ≤ end }
    requires within { end ≤ length items.now }
    ensures { result.now ≡ slice_range items.now start end }
{
    &items[start..end]
}

// The piece at a place among the items.
pub(crate) fn piece_in<'b, T>(items: &'b [T], ends: &[u32], at: usize) -> &'b [T]
    requires rising { EndsAt (length items.now) 0 ends.now }
    requires within { at < length ends.now }
    ensures { result.now ≡ slice_index_or (pieces_from items.now 0 ends.now) at [] }
{
    part(items, end_of(ends, at), ends[at] as usize)
}

// The text at a place among the bytes.
#[inline(always)]
fn text_in<'b>(bytes: &'b [u8], ends: &[u32], at: usize) -> Piece<'b>
    requires rising { EndsAt (length bytes.now) 0 ends.now }
    requires within { at < length ends.now }
    ensures { result ≡ slice_index_or (pieces_from bytes.now 0 ends.now) at [] }
{
    Piece::within(bytes, end_of(ends, at), ends[at] as usize)
}
