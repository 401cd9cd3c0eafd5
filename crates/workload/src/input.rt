// The made input.
ghost use Rattle.std.specs.Prelude.{◌≡◌, ◌≤◌, IfOk};
ghost use Rattle.link_limits.specs.declared.TheConstants.{MOST_ROWS};
ghost use Rattle.workload.specs.Made.{text_of_a, text_of_b, text_of_sample, text_of_settings};

use crate::files::{a_text, b_text};
use crate::samples::sample_text;
use crate::settings::settings_text;
use link_base::{NoMemory, Text};
use std::alloc::Global;

/// A made input: the texts of its settings, of its two files and of its sample.
#[derive(Drop)]
pub struct MadeInput {
    pub settings: Text,
    pub a: Text,
    pub b: Text,
    pub sample: Text,
}

/// The made input of a number of rows, from 2 to `MOST_ROWS` in each file. Row by row the two files hold the same people, but for one
/// change in three rows out of ten of B; the sample pairs records with their own copies as matched, and with the next as unmatched.
pub fn make_input(alloc: Global, rows: u32) -> Result<MadeInput, NoMemory>
    requires some { 2 ≤ rows }
    requires few { rows ≤ MOST_ROWS }
    ensures settings { IfOk result (λ made. made.settings ≡ text_of_settings rows) }
    ensures a { IfOk result (λ made. made.a ≡ text_of_a rows) }
    ensures b { IfOk result (λ made. made.b ≡ text_of_b rows) }
    ensures sample { IfOk result (λ made. made.sample ≡ text_of_sample rows) }
{
    let settings = settings_text(alloc, rows)?;
    let a = a_text(alloc, rows)?;
    let b = b_text(alloc, rows)?;
    let sample = sample_text(alloc, rows)?;
    Ok(MadeInput {
        settings,
        a,
        b,
        sample,
    })
}
