// The text of the compared pairs.
ghost use Rattle.std.specs.Prelude.{◌≡◌, ◌<◌, ◌++◌, IfOk, OnOk, length};
ghost use Rattle.csv.specs.Writing.{default_writer, row_text};
ghost use Rattle.link_report.specs.PairsText.{pair_row, pairs_header};
ghost use Rattle.patterns.specs.Patterns.{pattern_count_by, rare_of};

use crate::ends::LineEnds;
use crate::id_fields::IdFields;
use crate::open::PairRow;
use link_base::{NoMemory, Shape, Text};
use std::alloc::Global;
use std::marker::Model;

/// A writer of the text of the compared pairs, row by row. Contracts see which of its fields may be rare, and its text so
/// far.
#[derive(Drop)]
pub struct PairsWriter {
    ends: LineEnds,
    text: Vec<u8>,
}

impl Model for PairsWriter {
    ghost use Rattle.link_report.specs.PairsText.{PairsWritten};

    ghost Value = { PairsWritten };

    ghost view = { λ w. record { rares = w.ends; text = w.text.items } };
}

impl PairsWriter {
    /// A writer of pairs with patterns of this shape: its text is the header
    /// `id_a,id_b,pattern,outcomes,weight,decision,verdict`, with room for so many bytes.
    #[tactic(auto, using(crate::proofs::HeaderLemmas::header_texts))]
    pub fn with_room(alloc: Global, shape: &Shape, room: usize) -> Result<PairsWriter, NoMemory>
        ensures rares { IfOk result (λ writer. writer.rares ≡ rare_of shape.now) }
        ensures text { IfOk result (λ writer. writer.text ≡ row_text default_writer pairs_header) }
    {
        let ends = LineEnds::new(alloc, shape)?;
        let mut text = Vec::with_capacity(alloc, room)?;
        text.extend_from_slice(b"id_a,id_b,pattern,outcomes,weight,decision,verdict\n")?;
        Ok(PairsWriter { ends, text })
    }

    /// Appends the line of a pair. Outcomes are a letter a field: A agree, D disagree, M missing, R rare. A pair without a verdict has
    /// an empty last field. After a refusal the writer is of no more use.
    #[tactic(auto, using(crate::proofs::LineLemmas::pair_written))]
    pub fn push(
        &mut self,
        row: &PairRow,
        a: &IdFields<'_>,
        b: &IdFields<'_>,
    ) -> Result<(), NoMemory>
        requires in_a { row.now.at.a < length a.now }
        requires in_b { row.now.at.b < length b.now }
        requires pattern { row.now.pattern < pattern_count_by self.old.rares }
        ensures rares { self.new.rares ≡ self.old.rares }
        ensures text { OnOk result (self.new.text ≡ self.old.text ++ pair_row self.old.rares a.now b.now row.now) }
    {
        let (first, second) = (a.piece(row.at.a), b.piece(row.at.b));
        self.ends.append_line(&mut self.text, first, second, row)
    }

    /// The text, which takes no memory.
    pub fn finish(self) -> Text
        ensures { result ≡ self.text }
    {
        Text::of(self.text)
    }
}
