// The ids of pairs.
ghost use Rattle.std.specs.Prelude.{◌≡◌, ◌<◌, ◌++◌, ◌∷◌, [], All, OnOk, length, map, flat_map};
ghost use Rattle.csv.specs.Writing.{default_writer, field_text};
ghost use Rattle.link_base.specs.Standard.{id_at};
ghost use Rattle.link_report.specs.LineParts.{two_fields};
ghost use Rattle.link_report.specs.PairsText.{ids_header, ids_line, pair_with};

use crate::id_fields::{IdFields, push_two};
use link_base::{NoMemory, Text};
use std::alloc::Global;
use std::marker::Model;

// Appends a line for each of these records of B behind the field of a record of A.
fn push_lines(
    text: &mut Vec<u8>,
    first: &[u8],
    partners: &[u32],
    b: &IdFields<'_>,
) -> Result<(), NoMemory>
    requires { All (λ j. j < length b.now) partners.now }
    ensures { OnOk result (text.new.items ≡ text.old.items ++ flat_map (λ j. two_fields first.now (field_text default_writer (id_at b.now j)) ++ 10 ∷ []) partners.now) }
{
    for partner in partners {
        push_two(text, first, b.field(*partner))?;
        text.push(b'\n')?;
    }
    Ok(())
}

/// Writes the ids of pairs of records: the header `id_a,id_b`, and a line for each pair with its two ids. Contracts see the text
/// so far.
#[derive(Drop)]
pub struct IdsWriter {
    text: Vec<u8>,
}

impl Model for IdsWriter {
    ghost use Rattle.std.specs.Prelude.{List, ℕ};

    ghost Value = { List ℕ };

    ghost view = { λ w. w.text.items };
}

impl IdsWriter {
    ghost use Rattle.std.specs.Prelude.{IfOk};

    /// The header, with room for a text of so many bytes.
    #[tactic(auto, using(crate::proofs::HeaderLemmas::header_texts))]
    pub fn with_room(alloc: Global, room: usize) -> Result<IdsWriter, NoMemory>
        ensures { IfOk result (λ writer. writer ≡ ids_header) }
    {
        let mut text = Vec::with_capacity(alloc, room)?;
        text.extend_from_slice(b"id_a,id_b\n")?;
        Ok(IdsWriter { text })
    }

    /// Appends a line for each pair of a record of A with one of these records of B, by their positions.
    pub fn push_row(
        &mut self,
        at: u32,
        partners: &[u32],
        a: &IdFields<'_>,
        b: &IdFields<'_>,
    ) -> Result<(), NoMemory>
        requires in_a { 0 < length partners.now → at < length a.now }
        requires in_b { All (λ j. j < length b.now) partners.now }
        ensures { OnOk result (self.new ≡ self.old ++ flat_map (ids_line a.now b.now) (map (pair_with at) partners.now)) }
    {
        if partners.is_empty() {
            return Ok(());
        }
        push_lines(&mut self.text, a.field(at), partners, b)
    }

    /// The text.
    pub fn finish(self) -> Text
        ensures { result ≡ self }
    {
        Text::of(self.text)
    }
}
