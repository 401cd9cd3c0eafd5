// The words of verdicts and of steps.
ghost use Rattle.std.specs.Prelude.{◌≡◌, option_map};
ghost use Rattle.link_base.specs.Fault.{IsAnswer};
ghost use Rattle.link_base.specs.declared.fault.Fault.TheVariants as fault;
ghost use Rattle.file_reader.specs.Known.{or_fault};
ghost use Rattle.review_journal.specs.Rows.{step_named, step_word, verdict_named, verdict_word};

use link_base::{Fault, FileRole, Step, Verdict};

pub(crate) fn word_of_verdict<'t>(verdict: Verdict) -> &'t [u8]
    ensures { result.now ≡ verdict_word verdict }
{
    match verdict {
        Verdict::Link => b"link",
        Verdict::NonLink => b"nonlink",
        Verdict::Undecided => b"open",
    }
}

pub(crate) fn word_of_step<'t>(step: Step) -> &'t [u8]
    ensures { result.now ≡ step_word step }
{
    match step {
        Step::Single => b"single",
        Step::First => b"first",
        Step::Confirm => b"confirm",
    }
}

// The verdict that a word in a row names.
pub(crate) fn verdict_of(role: FileRole, row: u32, word: &[u8]) -> Result<Verdict, Fault>
    ensures answer { IsAnswer (or_fault (fault.BadVerdict role row) (verdict_named word.now)) result }
{
    if word == b"link".as_slice() {
        return Ok(Verdict::Link);
    }
    if word == b"nonlink".as_slice() {
        return Ok(Verdict::NonLink);
    }
    if word == b"open".as_slice() {
        return Ok(Verdict::Undecided);
    }
    Err(Fault::BadVerdict { role, row })
}

// The step that a word in a row names. A verdict without a word stands alone.
pub(crate) fn step_of(row: u32, word: Option<&[u8]>) -> Result<Step, Fault>
    ensures answer { IsAnswer (or_fault (fault.BadStep row) (step_named (option_map (λ w. w.now) word.entry))) result }
{
    let word = match word {
        Some(word) => word,
        None => return Ok(Step::Single),
    };
    if word == b"single".as_slice() {
        return Ok(Step::Single);
    }
    if word == b"first".as_slice() {
        return Ok(Step::First);
    }
    if word == b"confirm".as_slice() {
        return Ok(Step::Confirm);
    }
    Err(Fault::BadStep { row })
}
