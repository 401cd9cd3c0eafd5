// The text of the frontier of levels.
ghost use Rattle.std.specs.Prelude.{◌≡◌, ◌++◌, IfOk, OnOk, length};
ghost use Rattle.link_report.specs.LinksText.{level_row, text_of_frontier};

use csv_rows::push_row;
use itoa::Buffer;
use level_frontier::FrontierRow;
use link_base::{NoMemory, Text};
use std::alloc::Global;

// Appends the row of an asked level.
fn push_level(text: &mut Vec<u8>, asked: u32, row: &FrontierRow) -> Result<(), NoMemory>
    ensures { OnOk result (text.new.items ≡ text.old.items ++ level_row (asked, row.now)) }
{
    let mut of_asked = Buffer::new();
    let mut mu = Buffer::new();
    let mut lambda = Buffer::new();
    let mut possible_m = Buffer::new();
    let mut possible_u = Buffer::new();
    let mut denominator = Buffer::new();
    let mut slack_m = Buffer::new();
    let mut slack_u = Buffer::new();
    push_row(
        text,
        &[
            of_asked.format(asked).as_bytes(),
            mu.format(row.levels.mu).as_bytes(),
            lambda.format(row.levels.lambda).as_bytes(),
            possible_m.format(row.levels.possible_m).as_bytes(),
            possible_u.format(row.levels.possible_u).as_bytes(),
            denominator.format(row.levels.denominator).as_bytes(),
            slack_m.format(row.slack_m).as_bytes(),
            slack_u.format(row.slack_u).as_bytes(),
        ],
    )
}

/// The text of the frontier of levels: the header
/// `mu_ppm,mu,lambda,possible_m,possible_u,denominator,slack_m,slack_u`, and a row for each asked level in order.
#[tactic(auto, using(crate::proofs::HeaderLemmas::header_texts))]
pub fn frontier_text(alloc: Global, mus: &[u32], rows: &[FrontierRow]) -> Result<Text, NoMemory>
    requires { length mus.now ≡ length rows.now }
    ensures { IfOk result (λ text. text ≡ text_of_frontier mus.now rows.now) }
{
    let mut text = Vec::new(alloc);
    text.extend_from_slice(
        b"mu_ppm,mu,lambda,possible_m,possible_u,denominator,slack_m,slack_u\n",
    )?;
    for at in 0..mus.len() {
        push_level(&mut text, mus[at], &rows[at])?;
    }
    Ok(Text::of(text))
}
