// Clerical review of prepared files.
ghost use Rattle.std.specs.Prelude.{◌≡◌, ◌<◌, All, IfOk, length};
ghost use Rattle.link_base.specs.Fault.{IsAnswer};
ghost use Rattle.link_base.specs.Standard.{IsDay};
ghost use Rattle.link_core.specs.Rules.{decisions_of, IsDecidedIn};
ghost use Rattle.link_core.specs.Review.{IsJournalOf, is_open, journal_lines_of, journal_in_files, open_row_of, open_rows_of, open_text_of, reviewed_lines_of, text_within};
ghost use Rattle.link_report.specs.declared.open.PairRow.{PairRow as Row};
ghost use Rattle.review_journal.specs.Verdict.{IsReviewer};

use crate::preparing::Prepared;
use link_base::{Decision, Fault, FileRole, NoMemory, PairAt, Sides, Text, Verdict};
use link_limits::MOST_FILE_BYTES;
use link_report::{PairRow, open_text};
use pair_decisions::Decided;
use review_journal::{Journal, journal_text, read_journal, read_verdicts};
use std::alloc::Global;

/// The journal in a file, over prepared files, or the first fault of the file.
pub fn journal_in_files(alloc: Global, prepared: &Prepared, bytes: &[u8]) -> Result<Journal, Fault>
    ensures answer { IsAnswer (journal_in_files prepared.now.files bytes.now) result }
    ensures of_files { IfOk result (IsJournalOf prepared.now.files) }
{
    read_journal(alloc, bytes, prepared.a(), prepared.b())
}

// A text of a journal, where it is not too long to be loaded again.
fn within_limit(text: Text) -> Result<Text, Fault>
    ensures answer { IsAnswer (text_within text) result }
{
    if text.bytes().len() as u64 > MOST_FILE_BYTES {
        return Err(Fault::FileTooLong {
            role: FileRole::Journal,
            limit: MOST_FILE_BYTES,
        });
    }
    Ok(text)
}

/// The text of a journal over prepared files; it is too long where it has more than `MOST_FILE_BYTES`, since no later command
/// could load it.
pub fn journal_lines(alloc: Global, prepared: &Prepared, journal: &Journal) -> Result<Text, Fault>
    requires of_files { IsJournalOf prepared.now.files journal.now }
    ensures answer { IsAnswer (journal_lines_of prepared.now.files journal.now) result }
{
    let text = journal_text(alloc, journal, prepared.a(), prepared.b())?;
    within_limit(text)
}

/// The text of a journal with the new verdicts of a file, each on a possible link: of a reviewer on a day, counted from
/// 1970-01-01, and where `double` is set with a step for a second reviewer. The first fault is one of the file, then that of
/// the verdicts, and then that the text is too long.
pub fn add_verdicts(
    alloc: Global,
    prepared: &Prepared,
    decided: &Decided,
    journal: &mut Journal,
    verdicts: &[u8],
    date: i32,
    reviewer: &str,
    double: bool,
) -> Result<Text, Fault>
    requires day { IsDay date }
    requires reviewer { IsReviewer reviewer.now }
    requires decided { IsDecidedIn prepared.now decided.now }
    requires of_files { IsJournalOf prepared.now.files journal.old }
    ensures answer { IsAnswer (reviewed_lines_of double date reviewer.now prepared.now.files decided.now.possible journal.old verdicts.now) result }
{
    let batch = match read_verdicts(alloc, verdicts, prepared.a(), prepared.b()) {
        Ok(batch) => batch,
        Err(fault) => return Err(fault),
    };
    match journal.add(alloc, &batch, date, reviewer, decided.possible(), double) {
        Ok(()) => journal_lines(alloc, prepared, journal),
        Err(fault) => Err(fault),
    }
}

// Whether a pair with this verdict is open.
pub(crate) fn awaits(verdict: Option<Verdict>) -> bool
    ensures { result ≡ is_open verdict }
{
    match verdict {
        None | Some(Verdict::Undecided) => true,
        Some(Verdict::Link) | Some(Verdict::NonLink) => false,
    }
}

// A possible link as it is written.
fn row_of(prepared: &Prepared, decided: &Decided, journal: &Journal, at: PairAt) -> PairRow
    requires decided { IsDecidedIn prepared.now decided.now }
    requires in_a { at.a < length prepared.now.files.a.records }
    requires in_b { at.b < length prepared.now.files.b.records }
    ensures { result ≡ open_row_of (decisions_of prepared.now decided.now) journal.now at }
{
    let rule = decided.rule();
    let pattern = rule.pattern(
        prepared.sides(FileRole::A).sides(at.a),
        prepared.sides(FileRole::B).sides(at.b),
    );
    PairRow {
        at,
        pattern,
        weight: rule.cell(pattern).weight,
        decision: Decision::Possible,
        verdict: journal.verdict(at.a, at.b),
    }
}

/// The possible links without a verdict, or with an undecided one, rising by position.
pub fn open_rows(
    alloc: Global,
    prepared: &Prepared,
    decided: &Decided,
    journal: &Journal,
) -> Result<Vec<PairRow>, NoMemory>
    requires decided { IsDecidedIn prepared.now decided.now }
    ensures rows { IfOk result (λ rows. rows.items ≡ open_rows_of (decisions_of prepared.now decided.now) journal.now) }
    ensures in_a { IfOk result (λ rows. All (λ (r : Row). r.at.a < length prepared.now.files.a.records) rows.items) }
    ensures in_b { IfOk result (λ rows. All (λ (r : Row). r.at.b < length prepared.now.files.b.records) rows.items) }
{
    let mut rows = Vec::new(alloc);
    for at in decided.possible() {
        if awaits(journal.verdict(at.a, at.b)) {
            rows.push(row_of(prepared, decided, journal, *at))?;
        }
    }
    Ok(rows)
}

/// The text of what is open: the header `id_a,id_b,pattern,weight`, and a line for each possible link that waits for a verdict:
/// one that has none, or is undecided.
pub fn open_lines(
    alloc: Global,
    prepared: &Prepared,
    decided: &Decided,
    journal: &Journal,
) -> Result<Text, NoMemory>
    requires decided { IsDecidedIn prepared.now decided.now }
    ensures { IfOk result (λ text. text ≡ open_text_of prepared.now.files (decisions_of prepared.now decided.now) journal.now) }
{
    let rows = open_rows(alloc, prepared, decided, journal)?;
    open_text(alloc, &rows, prepared.a(), prepared.b())
}
