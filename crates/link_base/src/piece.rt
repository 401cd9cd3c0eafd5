// The pieces of the text of a fault.
ghost use Rattle.std.specs.Prelude.{◌≡◌, ◌++◌, OnOk};
ghost use Rattle.link_base.specs.Fault.{role_name};
ghost use Rattle.link_base.specs.Pieces.{piece_text, pieces_text};

use crate::fault::FileRole;
use link_texts::{NoMemory, Text, push_number};
use std::alloc::Global;

// Words, a name, a number in decimal, a file, or a row of a file.
#[derive(Clone, Copy)]
pub(crate) enum Piece<'f> {
    Nothing,
    Words(&'static [u8]),
    Name(&'f Text),
    Number(u64),
    File(FileRole),
    Row(FileRole, u32),
}

// Pieces in a row, the last of which may be nothing.
#[derive(Clone, Copy)]
pub(crate) struct Pieces<'f> {
    pub(crate) first: Piece<'f>,
    pub(crate) second: Piece<'f>,
    pub(crate) third: Piece<'f>,
    pub(crate) fourth: Piece<'f>,
    pub(crate) fifth: Piece<'f>,
}

pub(crate) fn one(first: Piece<'_>) -> Pieces<'_>
    ensures { pieces_text result ≡ piece_text first.entry }
{
    two(first, Piece::Nothing)
}

pub(crate) fn two<'f>(first: Piece<'f>, second: Piece<'f>) -> Pieces<'f>
    ensures { pieces_text result ≡ piece_text first.entry ++ piece_text second.entry }
{
    three(first, second, Piece::Nothing)
}

pub(crate) fn three<'f>(first: Piece<'f>, second: Piece<'f>, third: Piece<'f>) -> Pieces<'f>
    ensures { pieces_text result ≡ piece_text first.entry ++ piece_text second.entry ++ piece_text third.entry }
{
    four(first, second, third, Piece::Nothing)
}

pub(crate) fn four<'f>(
    first: Piece<'f>,
    second: Piece<'f>,
    third: Piece<'f>,
    fourth: Piece<'f>,
) -> Pieces<'f>
    ensures { pieces_text result ≡ piece_text first.entry ++ piece_text second.entry ++ piece_text third.entry ++ piece_text fourth.entry }
{
    Pieces {
        first,
        second,
        third,
        fourth,
        fifth: Piece::Nothing,
    }
}

fn role_bytes(role: FileRole) -> &'static [u8]
    ensures { result.now ≡ role_name role }
{
    match role {
        FileRole::Settings => b"settings",
        FileRole::A => b"a",
        FileRole::B => b"b",
        FileRole::Sample => b"sample",
        FileRole::Journal => b"journal",
        FileRole::Verdicts => b"verdicts",
        FileRole::Rule => b"rule",
        FileRole::Links => b"links",
        FileRole::Prices => b"prices",
        FileRole::Capacities => b"capacities",
    }
}

fn push_piece(alloc: Global, text: &mut Vec<u8>, piece: Piece<'_>) -> Result<(), NoMemory>
    ensures { OnOk result (text.new.items ≡ text.old.items ++ piece_text piece.entry) }
{
    match piece {
        Piece::Nothing => Ok(()),
        Piece::Words(words) => {
            text.extend_from_slice(words)?;
            Ok(())
        }
        Piece::Name(name) => {
            text.extend_from_slice(name.bytes())?;
            Ok(())
        }
        Piece::Number(number) => push_number(alloc, text, number),
        Piece::File(role) => {
            text.extend_from_slice(role_bytes(role))?;
            Ok(())
        }
        Piece::Row(role, row) => {
            text.extend_from_slice(role_bytes(role))?;
            text.extend_from_slice(b": row ")?;
            push_number(alloc, text, u64::from(row))?;
            text.extend_from_slice(b": ")?;
            Ok(())
        }
    }
}

// Appends pieces.
pub(crate) fn push_pieces(
    alloc: Global,
    text: &mut Vec<u8>,
    pieces: Pieces<'_>,
) -> Result<(), NoMemory>
    ensures { OnOk result (text.new.items ≡ text.old.items ++ pieces_text pieces.entry) }
{
    push_piece(alloc, text, pieces.first)?;
    push_piece(alloc, text, pieces.second)?;
    push_piece(alloc, text, pieces.third)?;
    push_piece(alloc, text, pieces.fourth)?;
    push_piece(alloc, text, pieces.fifth)
}
