// The lines at the head of a report.
ghost use Rattle.std.specs.Prelude.{◌≡◌, ◌≤◌, ◌++◌, ◌∷◌, [], ◌^◌, OnOk, codes, decimal, map};
ghost use Rattle.std.specs.Fmt.{signed_decimal};
ghost use Rattle.std.specs.List.{concat};
ghost use Rattle.link_base.specs.Rule.{HasBoundedSums};
ghost use Rattle.link_report.specs.ReportText.{level_line, line, link_lines, report_head};

use crate::report::Report;
use itoa::Buffer;
use link_base::{NoMemory, StdFile};
use link_limits::PER_MILLION;

// Appends a line of numbers.
fn push_line(text: &mut Vec<u8>, name: &[u8], numbers: &[u128]) -> Result<(), NoMemory>
    ensures { OnOk result (text.new.items ≡ text.old.items ++ line name.now (map decimal numbers.now)) }
{
    let mut digits = Buffer::new();
    text.extend_from_slice(name)?;
    for number in numbers {
        text.push(b' ')?;
        text.extend_from_slice(digits.format(*number).as_bytes())?;
    }
    text.push(b'\n')?;
    Ok(())
}

// Appends a line of one count.
fn push_count(text: &mut Vec<u8>, name: &[u8], count: u32) -> Result<(), NoMemory>
    ensures { OnOk result (text.new.items ≡ text.old.items ++ line name.now (decimal count ∷ [])) }
{
    push_line(text, name, &[u128::from(count)])
}

// Appends a line of a count in each file.
fn push_counts(text: &mut Vec<u8>, name: &[u8], in_a: u32, in_b: u32) -> Result<(), NoMemory>
    ensures { OnOk result (text.new.items ≡ text.old.items ++ line name.now (decimal in_a ∷ decimal in_b ∷ [])) }
{
    push_line(text, name, &[u128::from(in_a), u128::from(in_b)])
}

// Appends the line of an attained level.
fn push_level(text: &mut Vec<u8>, name: &[u8], sum: u128, denominator: u128) -> Result<(), NoMemory>
    requires some { 1 ≤ denominator }
    requires bounded { sum ≤ 2 ^ 92 }
    ensures { OnOk result (text.new.items ≡ text.old.items ++ level_line name.now sum denominator) }
{
    let per_million = sum * u128::from(PER_MILLION) / denominator;
    push_line(text, name, &[sum, denominator, per_million])
}

// Appends the line of the sum of values.
fn push_total(text: &mut Vec<u8>, total: i64) -> Result<(), NoMemory>
    ensures { OnOk result (text.new.items ≡ text.old.items ++ line (codes "total") (signed_decimal total ∷ [])) }
{
    text.extend_from_slice(b"total ")?;
    let mut digits = Buffer::new();
    text.extend_from_slice(digits.format(total).as_bytes())?;
    text.push(b'\n')?;
    Ok(())
}

// Appends the lines of the links.
fn push_links(text: &mut Vec<u8>, report: &Report) -> Result<(), NoMemory>
    ensures { OnOk result (text.new.items ≡ text.old.items ++ concat (link_lines report.now)) }
{
    push_count(text, b"links", report.links)?;
    push_total(text, report.total)?;
    push_line(text, b"dropped", &[report.dropped.len() as u128])?;
    Ok(())
}

// Appends the first sixteen lines of a report.
pub(crate) fn push_head(
    text: &mut Vec<u8>,
    report: &Report,
    a: &StdFile,
    b: &StdFile,
) -> Result<(), NoMemory>
    requires { HasBoundedSums report.now.levels }
    ensures { OnOk result (text.new.items ≡ text.old.items ++ report_head a.now b.now report.now) }
{
    let levels = &report.levels;
    push_counts(text, b"rows", a.rows(), b.rows())?;
    push_counts(
        text,
        b"unreadable",
        report.unreadable_a,
        report.unreadable_b,
    )?;
    push_count(text, b"pairs", report.pairs)?;
    push_count(text, b"link", report.link)?;
    push_count(text, b"possible", report.possible)?;
    push_count(text, b"nonlink", report.nonlink)?;
    push_count(text, b"open", report.undecided)?;
    push_count(text, b"entries", report.entries)?;
    push_count(text, b"idle", report.idle)?;
    push_level(text, b"mu", levels.mu, levels.denominator)?;
    push_level(text, b"lambda", levels.lambda, levels.denominator)?;
    push_level(text, b"possible_m", levels.possible_m, levels.denominator)?;
    push_level(text, b"possible_u", levels.possible_u, levels.denominator)?;
    push_links(text, report)?;
    Ok(())
}
