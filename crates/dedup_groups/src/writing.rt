// The text of groups.
ghost use Rattle.std.specs.Prelude.{◌≡◌, ◌+◌, ◌<◌, ◌^◌, ◌++◌, [], All, IfOk, IfSome, OnOk, length, nat_le, if◌then◌else◌};
ghost use Rattle.std.specs.List.{enumerate_from, flat_map};
ghost use Rattle.block_passes.specs.Numbering.{AreGroups};
ghost use Rattle.dedup_groups.specs.GroupsText.{group_row, group_rows, id_of_via, printed_leaders, text_of_groups};

use crate::forest::Groups;
use block_passes::Groups as Rows;
use csv_rows::{digits_of, push_row};
use link_base::{NoMemory, StdFile, Text};
use std::alloc::Global;

// The id of the record that a record was reached from, empty for a leader.
fn id_of_via(file: &StdFile, via: Option<u32>) -> &[u8]
    requires { IfSome via (λ from. from < length file.now) }
    ensures { result.now ≡ id_of_via file.now via }
{
    match via {
        Some(from) => file.id(from),
        None => b"",
    }
}

// Appends the rows of a group of at least two under the next number, and gives the last number.
fn push_next(
    alloc: Global,
    text: &mut Vec<u8>,
    groups: &Groups,
    file: &StdFile,
    number: u32,
    group: &[u32],
) -> Result<u32, NoMemory>
    requires rows { length groups.now.leaders ≡ length file.now }
    requires within { All (λ at. at < length file.now) group.now }
    requires fits { number + 1 < 2 ^ 32 }
    ensures number { IfOk result (λ last. last ≡ (if nat_le 2 (length group.now) then number + 1 else number)) }
    ensures text { OnOk result (text.new.items ≡ text.old.items ++ (if nat_le 2 (length group.now) then flat_map (group_row groups.now.vias file.now (number + 1)) group.now else [])) }
{
    if group.len() < 2 {
        return Ok(number);
    }
    let last = number + 1;
    let digits = digits_of(alloc, u128::from(last))?;
    for at in group {
        let via = id_of_via(file, groups.via(*at));
        push_row(text, &[digits.as_bytes(), file.id(*at), via])?;
    }
    Ok(last)
}

// Appends the rows of the groups of at least two.
fn push_groups(
    alloc: Global,
    text: &mut Vec<u8>,
    groups: &Groups,
    file: &StdFile,
    by_leader: &Rows,
) -> Result<(), NoMemory>
    requires rows { length groups.now.leaders ≡ length file.now }
    requires by_leader { AreGroups groups.now.leaders (length groups.now.leaders) by_leader.now }
    ensures { OnOk result (text.new.items ≡ text.old.items ++ flat_map (group_rows groups.now.leaders groups.now.vias file.now) (enumerate_from 1 (printed_leaders groups.now.leaders))) }
{
    let mut number = 0;
    for leader in 0..groups.rows() {
        number = push_next(alloc, text, groups, file, number, by_leader.rows(leader))?;
    }
    Ok(())
}

/// The text of the groups of a file's records: the header `group,id,via`, and a row for each record of a group of at least two,
/// group by group as they rise by their leaders, from 1, and in each group by position. `via` is the id of the record that the
/// record was reached from, and empty for a leader.
#[tactic(auto, using(crate::proofs::TextLemmas::header_text))]
pub fn groups_text(alloc: Global, groups: &Groups, file: &StdFile) -> Result<Text, NoMemory>
    requires { length groups.now.leaders ≡ length file.now }
    ensures { IfOk result (λ text. text ≡ text_of_groups groups.now.leaders groups.now.vias file.now) }
{
    let by_leader = Rows::new(alloc, groups.leaders(), groups.rows())?;
    let mut text = Vec::new(alloc);
    text.extend_from_slice(b"group,id,via\n")?;
    push_groups(alloc, &mut text, groups, file, &by_leader)?;
    Ok(Text::of(text))
}
