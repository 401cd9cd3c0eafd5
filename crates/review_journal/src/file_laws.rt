// The laws of verdicts and of journal files.
ghost use Rattle.std.specs.Prelude.{◌≡◌, All, List, Ok, codes, false, length, option_map, ℕ};
ghost use Rattle.file_reader.specs.Table.{records_in};
ghost use Rattle.link_base.specs.Standard.{Record};
ghost use Rattle.link_base.specs.declared.rule.Step.TheVariants.{Single};
ghost use Rattle.file_reader.specs.Rows.{header_has};
ghost use Rattle.review_journal.specs.Verdict.{IsJournal, IsWithinFiles, last_on, verdict_on};
ghost use Rattle.review_journal.specs.Kept.{MigrationKeepsAll, ReviewKeepsAll};
ghost use Rattle.review_journal.specs.declared.entry.Entry.{Entry as JournalEntry};
ghost use Rattle.review_journal.specs.Reading.{journal_in, HasIds, text_of_journal};

use csv_rows::rows_read_again;
use value_forms::day_read_again;

/// Law: where every entry stands alone, the verdict on a pair is that of the last entry that names it.
#[tactic(auto, using(crate::proofs::PlaceLemmas::verdict_stands))]
pub fn single_verdicts_stand()
    ensures { (entries : List JournalEntry) (a b : ℕ) → All (λ (e : JournalEntry). e.step ≡ Single) entries
        → verdict_on entries a b ≡ option_map (λ (e : JournalEntry). e.verdict) (last_on entries a b) }
{}

/// Law: the text of a journal reads as this journal, for files whose ids are such as tables have.
pub fn read_again()
    ensures { (a b : List Record) (entries : List JournalEntry) → HasIds a → HasIds b → IsJournal entries
        → All (IsWithinFiles (length a) (length b)) entries
        → journal_in a b (text_of_journal a b entries) ≡ Ok entries }
{
    rows_read_again();
    day_read_again();
}

/// Law: in a journal of the first version, which has no column `step`, each verdict stands alone, so a pair has the verdict of
/// the last entry that names it.
pub fn first_version_is_single()
    ensures single { (a b : List Record) (bytes : List ℕ) (entries : List JournalEntry)
        → header_has (codes "step") (records_in 44 bytes) ≡ false → journal_in a b bytes ≡ Ok entries
        → All (λ (e : JournalEntry). e.step ≡ Single) entries }
    ensures last { (a b : List Record) (bytes : List ℕ) (entries : List JournalEntry)
        → header_has (codes "step") (records_in 44 bytes) ≡ false → journal_in a b bytes ≡ Ok entries
        → (x y : ℕ) → verdict_on entries x y ≡ option_map (λ (e : JournalEntry). e.verdict) (last_on entries x y) }
{
    single_verdicts_stand();
}

/// Law: the text of a journal that was read, with the new verdicts that were added to it, reads as the old entries followed by one for
/// each new verdict, and each other pair has the verdict that it had; the text of a journal that was read reads as its entries.
pub fn no_verdict_is_lost()
    ensures reviewed { ReviewKeepsAll }
    ensures migrated { MigrationKeepsAll }
{
    read_again();
}
