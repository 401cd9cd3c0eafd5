// What a run comes to.
ghost use Rattle.std.specs.Prelude.{◌≡◌, ◌<◌, ◌≤◌, All, IfOk, length};
ghost use Rattle.candidate_links.specs.Candidates.{AreCandidates, IsChoice};
ghost use Rattle.link_core.specs.Rules.{IsDecidedIn, rule_in};
ghost use Rattle.link_base.specs.Rule.{HasBoundedSums};
ghost use Rattle.link_limits.specs.declared.TheConstants.{MOST_PAIRS};
ghost use Rattle.decision_rule.specs.Rule.{AreLevelsOf};
ghost use Rattle.link_core.specs.Results.{AreRunTexts, AreTextsBy, candidates_in, IsBegun, IsDecidedFor, IsPlaced, KeepsRows, five_texts, with_links};
ghost use Rattle.link_core.specs.Review.{open_pairs};
ghost use Rattle.link_base.specs.declared.rule.Candidate.{Candidate as Link};
ghost use Rattle.link_report.specs.LinksText.{text_of_links, text_of_prices, text_of_rule};
ghost use Rattle.link_report.specs.PairsText.{text_of_pairs};
ghost use Rattle.pair_decisions.specs.Comparators.{rares_of};
ghost use Rattle.pair_decisions.specs.PairRows.{AreRowsIn, shown_rows};
ghost use Rattle.pair_decisions.specs.PairRule.{AreCellsOf};
ghost use Rattle.patterns.specs.Patterns.{pattern_count_by};
ghost use Rattle.link_plan.specs.Ranges.{KeepsRanges};

use crate::preparing::{FileIds, Prepared};
use crate::review::awaits;
use candidate_links::{ChosenLinks, candidates_among, choose_links};
use decision_rule::attained;
use link_base::{Candidate, Decision, FileRole, Levels, NoMemory, Text};
use link_plan::Plan;
use link_report::{IdFields, Report, links_text, prices_text, report_text, rule_text};
use pair_decisions::{Decided, pair_lines};
use review_journal::{Journal, idle_entries};
use std::alloc::Global;

/// The five texts of a run: the compared pairs, the decision rule, the links, their dual prices, and the report.
#[derive(Drop)]
pub struct RunResult {
    pub pairs: Text,
    pub rule: Text,
    pub links: Text,
    pub prices: Text,
    pub report: Text,
}

/// The candidates for links, rising by position: the pairs that are links by the rule, each worth its weight, and the possible
/// links that review says are links, each worth its weight and the award of the plan.
pub fn candidates(
    alloc: Global,
    plan: &Plan,
    prepared: &Prepared,
    decided: &Decided,
    journal: &Journal,
) -> Result<Vec<Candidate>, NoMemory>
    requires ranges { KeepsRanges plan.now }
    requires of_files { IsDecidedIn prepared.now decided.now }
    requires decided { IsDecidedFor plan.now prepared.now decided.now }
    ensures { IfOk result (λ cs. AreCandidates (length prepared.now.files.a.records) (length prepared.now.files.b.records) (candidates_in plan.now prepared.now.files (rule_in prepared.now decided.now) journal.now) cs.items) }
{
    candidates_among(
        alloc,
        decided,
        journal,
        plan.terms.award,
        prepared.sides(FileRole::A),
        prepared.sides(FileRole::B),
    )
}

// A greatest one-to-one list of the candidates with prices that certify it, and the candidates that are not in it.
fn links_of(
    alloc: Global,
    rows_a: u32,
    rows_b: u32,
    found: Vec<Candidate>,
) -> Result<ChosenLinks, NoMemory>
    requires { AreCandidates rows_a rows_b found.items found.items }
    ensures chosen { IfOk result (IsChoice rows_a rows_b found.items) }
    ensures placed { IfOk result (IsPlaced rows_a rows_b) }
{
    let chosen = choose_links(alloc, rows_a, rows_b, &found);
    drop(found);
    chosen
}

// The text of the rule.
fn rule_of(alloc: Global, plan: &Plan, decided: &Decided) -> Result<Text, NoMemory>
    requires ranges { KeepsRanges plan.now }
    requires cells { AreCellsOf (pattern_count_by (rares_of plan.now.fields)) decided.now.rule.cells }
    ensures { IfOk result (λ text. text ≡ text_of_rule (rares_of plan.now.fields) decided.now.rule.cells) }
{
    rule_text(alloc, decided.rule().table(), &plan.shape())
}

// The attained levels of the rule.
fn levels_of(plan: &Plan, decided: &Decided) -> Levels
    requires ranges { KeepsRanges plan.now }
    requires cells { AreCellsOf (pattern_count_by (rares_of plan.now.fields)) decided.now.rule.cells }
    ensures levels { AreLevelsOf (length plan.now.fields) decided.now.rule.cells result }
    ensures bounded { HasBoundedSums result }
{
    attained(plan.shape().fields, decided.rule().table())
}

// How many possible links are open.
fn open_count(decided: &Decided, journal: &Journal) -> u32
    requires { length decided.now.possible ≤ MOST_PAIRS }
    ensures { result ≡ length (open_pairs journal.now decided.now.possible) }
{
    let mut open = 0;
    for at in decided.possible() {
        if awaits(journal.verdict(at.a, at.b)) {
            open += 1;
        }
    }
    open
}

// The report of a run before its links are chosen.
fn begun_report(
    alloc: Global,
    plan: &Plan,
    prepared: &Prepared,
    decided: &Decided,
    journal: &Journal,
) -> Report
    requires ranges { KeepsRanges plan.now }
    requires of_files { IsDecidedIn prepared.now decided.now }
    requires decided { IsDecidedFor plan.now prepared.now decided.now }
    ensures numbers { IsBegun plan.now prepared.now.files (rule_in prepared.now decided.now) journal.now result }
    ensures bounded { HasBoundedSums result.levels }
{
    Report {
        unreadable_a: prepared.unreadable(FileRole::A),
        unreadable_b: prepared.unreadable(FileRole::B),
        pairs: decided.compared(),
        link: decided.count(Decision::Link),
        possible: decided.count(Decision::Possible),
        nonlink: decided.count(Decision::NonLink),
        undecided: open_count(decided, journal),
        entries: journal.entries().len() as u32,
        idle: idle_entries(journal, decided.possible()),
        levels: levels_of(plan, decided),
        links: 0,
        total: 0,
        dropped: Vec::new(alloc),
    }
}

// A report with the links that were chosen.
fn with_links(begun: Report, chosen: ChosenLinks) -> Report
    requires { length chosen.links.items ≤ MOST_PAIRS }
    ensures { result ≡ with_links begun chosen }
{
    Report {
        links: chosen.links.len() as u32,
        total: chosen.total,
        dropped: chosen.dropped,
        ..begun
    }
}

// The text of links and that of their prices.
pub(crate) fn link_texts(
    alloc: Global,
    links: &[Candidate],
    prices_a: &[i64],
    prices_b: &[i64],
    a: &IdFields<'_>,
    b: &IdFields<'_>,
) -> Result<(Text, Text), NoMemory>
    requires in_a { All (λ (l : Link). l.a < length a.now) links.now }
    requires in_b { All (λ (l : Link). l.b < length b.now) links.now }
    requires priced_a { length prices_a.now ≡ length a.now }
    requires priced_b { length prices_b.now ≡ length b.now }
    ensures links { IfOk result (λ texts. texts.0 ≡ text_of_links a.now b.now links.now) }
    ensures prices { IfOk result (λ texts. texts.1 ≡ text_of_prices prices_a.now prices_b.now a.now b.now) }
{
    let of_links = links_text(alloc, links, a, b)?;
    let of_prices = prices_text(alloc, prices_a, prices_b, a, b)?;
    Ok((of_links, of_prices))
}

// The text of the compared pairs, by the rows that the decisions keep, and that of the rule.
fn decided_texts(
    alloc: Global,
    plan: &Plan,
    decided: Decided,
    journal: &Journal,
    a: &IdFields<'_>,
    b: &IdFields<'_>,
) -> Result<(Text, Text), NoMemory>
    requires ranges { KeepsRanges plan.now }
    requires cells { AreCellsOf (pattern_count_by (rares_of plan.now.fields)) decided.rule.cells }
    requires rows { AreRowsIn (length a.now) (length b.now) (length decided.rule.cells) decided.rows }
    ensures pairs { IfOk result (λ texts. texts.0 ≡ text_of_pairs (rares_of plan.now.fields) a.now b.now (shown_rows decided.rule.cells journal.now decided.rows)) }
    ensures rule { IfOk result (λ texts. texts.1 ≡ text_of_rule (rares_of plan.now.fields) decided.rule.cells) }
{
    let pairs = pair_lines(alloc, plan, &decided, journal, a, b);
    let rule = rule_of(alloc, plan, &decided);
    drop(decided);
    let pairs = pairs?;
    let rule = rule?;
    Ok((pairs, rule))
}

// The five texts of a run by the ids of its files. The text of the pairs, the longest, is made where the values of the files were,
// before links are chosen, so that its rows can go.
fn texts_by_ids(
    alloc: Global,
    plan: &Plan,
    ids: &FileIds,
    found: Vec<Candidate>,
    decided: Decided,
    journal: &Journal,
    begun: Report,
) -> Result<RunResult, NoMemory>
    requires ranges { KeepsRanges plan.now }
    requires cells { AreCellsOf (pattern_count_by (rares_of plan.now.fields)) decided.rule.cells }
    requires rows { AreRowsIn (length ids.now.a) (length ids.now.b) (length decided.rule.cells) decided.rows }
    requires found { AreCandidates (length ids.now.a) (length ids.now.b) found.items found.items }
    requires bounded { HasBoundedSums begun.levels }
    ensures { IfOk result (λ r. AreTextsBy plan.now ids.now.a ids.now.b found.items decided journal.now begun (five_texts r)) }
{
    let a = IdFields::of(alloc, &ids.a)?;
    let b = IdFields::of(alloc, &ids.b)?;
    let (pairs, rule) = decided_texts(alloc, plan, decided, journal, &a, &b)?;
    let chosen = links_of(alloc, ids.a.rows(), ids.b.rows(), found)?;
    let (links, prices) = link_texts(
        alloc,
        &chosen.links,
        &chosen.prices_a,
        &chosen.prices_b,
        &a,
        &b,
    )?;
    let made = with_links(begun, chosen);
    let report = report_text(alloc, &made, &ids.a, &ids.b)?;
    Ok(RunResult {
        pairs,
        rule,
        links,
        prices,
        report,
    })
}

/// The five texts of a run over prepared files, of which it needs no more than the ids once the candidates are found: a greatest
/// one-to-one list of the candidates; prices that certify it; the report; the compared pairs, by the rows that the decisions keep;
/// and the rule.
pub fn finish(
    alloc: Global,
    plan: &Plan,
    prepared: Prepared,
    decided: Decided,
    journal: &Journal,
) -> Result<RunResult, NoMemory>
    requires ranges { KeepsRanges plan.now }
    requires of_files { IsDecidedIn prepared decided }
    requires of_plan { IsDecidedFor plan.now prepared decided }
    requires rows { KeepsRows plan.now prepared decided }
    ensures { IfOk result (λ r. AreRunTexts plan.now prepared.files (rule_in prepared decided) journal.now (five_texts r)) }
{
    let found = candidates(alloc, plan, &prepared, &decided, journal);
    let begun = begun_report(alloc, plan, &prepared, &decided, journal);
    let ids = prepared.ids_alone(alloc);
    let found = found?;
    let ids = ids?;
    let made = texts_by_ids(alloc, plan, &ids, found, decided, journal, begun);
    drop(ids);
    made
}
