// The texts of the made files.
ghost use Rattle.std.specs.Prelude.{◌≡◌, ◌∷◌, ◌≤◌, ◌<◌, ◌++◌, IfOk, IfSome, OnOk, decimal};
ghost use Rattle.csv.specs.Writing.{default_writer, row_text};
ghost use Rattle.link_limits.specs.declared.TheConstants.{MOST_ROWS};
ghost use Rattle.link_base.specs.Standard.{IsDay};
ghost use Rattle.workload.specs.Made.{person_row, text_of_a, text_of_b};

use crate::people::{Person, changed_of, person_of};
use crate::words::{word_of_four, word_of_two};
use csv_rows::push_row;
use link_base::{NoMemory, Text, push_number};
use std::alloc::Global;
use value_forms::day_text;

/// The id of a row: the letter of its file, and its number.
pub fn id_of(alloc: Global, letter: u8, row: u32) -> Result<Vec<u8>, NoMemory>
    ensures { IfOk result (λ id. id.items ≡ letter ∷ decimal row) }
{
    let mut id = Vec::new(alloc);
    id.push(letter)?;
    push_number(alloc, &mut id, u64::from(row))?;
    Ok(id)
}

// Appends the row of a person.
fn push_person(
    alloc: Global,
    text: &mut Vec<u8>,
    letter: u8,
    row: u32,
    person: &Person,
) -> Result<(), NoMemory>
    requires { IfSome person.now.birth (λ day. IsDay day) }
    ensures { OnOk result (text.new.items ≡ text.old.items ++ row_text default_writer (person_row (letter ∷ decimal row) person.now)) }
{
    let id = id_of(alloc, letter, row)?;
    let surname = word_of_four(person.surname);
    let given = word_of_two(person.given);
    match person.birth {
        Some(day) => push_row(text, &[&id, &surname, &given, &day_text(day)]),
        None => push_row(text, &[&id, &surname, &given, b""]),
    }
}

/// The text of A.
#[tactic(auto, using(crate::proofs::Lemmas::file_header_text))]
pub fn a_text(alloc: Global, rows: u32) -> Result<Text, NoMemory>
    requires { rows ≤ MOST_ROWS }
    ensures { IfOk result (λ text. text ≡ text_of_a rows) }
{
    let mut text = Vec::new(alloc);
    text.extend_from_slice(b"id,surname,given,birth\n")?;
    for row in 0..rows {
        push_person(alloc, &mut text, b'A', row, &person_of(row))?;
    }
    Ok(Text::of(text))
}

/// The text of B.
#[tactic(auto, using(crate::proofs::Lemmas::file_header_text))]
pub fn b_text(alloc: Global, rows: u32) -> Result<Text, NoMemory>
    requires { rows ≤ MOST_ROWS }
    ensures { IfOk result (λ text. text ≡ text_of_b rows) }
{
    let mut text = Vec::new(alloc);
    text.extend_from_slice(b"id,surname,given,birth\n")?;
    for row in 0..rows {
        push_person(alloc, &mut text, b'B', row, &changed_of(row))?;
    }
    Ok(Text::of(text))
}
