// Links within capacities.
ghost use Rattle.std.specs.Prelude.{◌≡◌, ◌<◌, ◌++◌, All, IfOk, length};
ghost use Rattle.link_base.specs.Fault.{IsAnswer};
ghost use Rattle.link_base.specs.declared.rule.Candidate.{Candidate as Link};
ghost use Rattle.link_core.specs.Rules.{IsDecidedIn, rule_in};
ghost use Rattle.link_core.specs.Many.{AreCapacitiesOf, capacities_in_file, IsManyText};
ghost use Rattle.link_core.specs.Results.{IsDecidedFor};
ghost use Rattle.link_report.specs.LinksText.{text_of_links, text_of_prices};
ghost use Rattle.link_plan.specs.Ranges.{KeepsRanges};

use crate::preparing::Prepared;
use crate::results::{candidates, link_texts};
use candidate_links::{Capacities, LinksWithin, choose_within, read_capacities};
use link_base::{Fault, NoMemory, Text};
use link_plan::Plan;
use link_report::IdFields;
use pair_decisions::Decided;
use review_journal::Journal;
use std::alloc::Global;

/// The capacities in a file, one for each record of the prepared B, or the first fault of the file.
pub fn capacities_in_file(
    alloc: Global,
    prepared: &Prepared,
    bytes: &[u8],
) -> Result<Capacities, Fault>
    ensures answer { IsAnswer (capacities_in_file prepared.now.files bytes.now) result }
    ensures of_files { IfOk result (AreCapacitiesOf prepared.now.files) }
{
    read_capacities(alloc, bytes, prepared.b())
}

// The text of links, and after it that of their prices.
fn many_text(alloc: Global, prepared: &Prepared, chosen: &LinksWithin) -> Result<Text, NoMemory>
    requires in_a { All (λ (l : Link). l.a < length prepared.now.files.a.records) chosen.now.links.items }
    requires in_b { All (λ (l : Link). l.b < length prepared.now.files.b.records) chosen.now.links.items }
    requires priced_a { length chosen.now.prices_a.items ≡ length prepared.now.files.a.records }
    requires priced_b { length chosen.now.prices_b.items ≡ length prepared.now.files.b.records }
    ensures { IfOk result (λ text. text ≡ text_of_links prepared.now.files.a.records prepared.now.files.b.records chosen.now.links.items ++ text_of_prices chosen.now.prices_a.items chosen.now.prices_b.items prepared.now.files.a.records prepared.now.files.b.records) }
{
    let a = IdFields::of(alloc, prepared.a())?;
    let b = IdFields::of(alloc, prepared.b())?;
    let (links, prices) = link_texts(
        alloc,
        &chosen.links,
        &chosen.prices_a,
        &chosen.prices_b,
        &a,
        &b,
    )?;
    let mut text = links.into_bytes(alloc)?;
    text.extend_from_slice(prices.bytes())?;
    Ok(Text::of(text))
}

/// The text of a greatest list of the candidates in which a record of B stands at most as often as its capacity, and after it that of
/// prices that certify it, each with its header.
pub fn many_lines(
    alloc: Global,
    plan: &Plan,
    prepared: &Prepared,
    decided: &Decided,
    journal: &Journal,
    capacities: &Capacities,
) -> Result<Text, NoMemory>
    requires ranges { KeepsRanges plan.now }
    requires of_files { IsDecidedIn prepared.now decided.now }
    requires decided { IsDecidedFor plan.now prepared.now decided.now }
    requires capacities { AreCapacitiesOf prepared.now.files capacities.now }
    ensures { IfOk result (λ text. IsManyText plan.now prepared.now.files (rule_in prepared.now decided.now) journal.now capacities.now text) }
{
    let found = candidates(alloc, plan, prepared, decided, journal)?;
    let chosen = choose_within(
        alloc,
        prepared.a().rows(),
        prepared.b().rows(),
        capacities.each(),
        &found,
    );
    drop(found);
    let chosen = chosen?;
    many_text(alloc, prepared, &chosen)
}
