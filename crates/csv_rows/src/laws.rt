// The law of what is written and read again.
ghost use Rattle.std.specs.Prelude.{◌≡◌, ◌≤◌, All, List, length, ℕ, flat_map};
ghost use Rattle.csv.specs.Writing.{default_writer, row_text};
ghost use Rattle.file_reader.specs.Table.{records_in};
ghost use Rattle.csv_rows.specs.Numbers.{HasNoMark};

/// Law: the text of rows, each of some fields, reads as these rows, if it does not begin with a byte order mark.
#[tactic(auto, using(crate::proofs::Lemmas::read_again))]
pub fn rows_read_again()
    ensures { (rows : List (List (List ℕ))) → All (λ row. 1 ≤ length row) rows
        → HasNoMark (flat_map (row_text default_writer) rows)
        → records_in 44 (flat_map (row_text default_writer) rows) ≡ rows }
{}
