// The command `pairs A B COLUMN`.
ghost use Rattle.std.specs.Prelude.{◌≡◌, IfSome, is_some, map, string_bytes};
ghost use Rattle.command_scripts.specs.Does.{Does};
ghost use Rattle.command_scripts.specs.Steps.{sink_seen, store_seen};
ghost use Rattle.link_shell.specs.Generate.{are_column_words, columns_in, columns_of_request, columns_script};

use crate::words::{is_short, word_at};
use command_scripts::{Ended, print_text};
use command_steps::load_both;
use link_core::pair_rows;
use link_outside::{Refusal, Sink, Store};
use std::alloc::Global;

/// The files and the column.
#[derive(Clone, Copy)]
pub(crate) struct ColumnRequest<'w> {
    pub(crate) a: &'w str,
    pub(crate) b: &'w str,
    pub(crate) column: &'w str,
}

// Reads the words.
pub(crate) fn read(words: &[String]) -> Option<ColumnRequest<'_>>
    ensures some { is_some result ≡ are_column_words (map string_bytes words.now) }
    ensures request { IfSome result (λ r. columns_of_request r ≡ columns_in (map string_bytes words.now)) }
{
    if words.len() != 4 {
        return None;
    }
    let a = word_at(words, 1);
    let b = word_at(words, 2);
    let column = word_at(words, 3);
    if is_short(a) && is_short(b) && is_short(column) {
        Some(ColumnRequest { a, b, column })
    } else {
        None
    }
}

// Follows the script.
pub(crate) fn perform<S: Store, O: Sink>(
    alloc: Global,
    request: &ColumnRequest<'_>,
    store: &mut S,
    out: &mut O,
) -> Result<Ended, Refusal>
    ensures { Does (columns_script (columns_of_request request.now)) (store_seen S.tells S.held S.faults store.old store.new) (sink_seen O.tells O.taken O.faults out.old out.new) result }
{
    let inputs = load_both(alloc, store, request.a, request.b)?;
    let text = pair_rows(alloc, request.column, inputs.a, inputs.b)?;
    print_text(alloc, Ended::Done, text, out)
}
