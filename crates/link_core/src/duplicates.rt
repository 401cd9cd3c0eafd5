// The groups of one file.
ghost use Rattle.std.specs.Prelude.{◌≡◌, ◌<◌, ◌≤◌, All, IfOk, length};
ghost use Rattle.dedup_groups.specs.Groups.{IsLinkWithin};
ghost use Rattle.link_base.specs.declared.rule.PairAt.{PairAt as Pair};
ghost use Rattle.link_core.specs.Rules.{IsDecidedIn};
ghost use Rattle.link_core.specs.Prepared.{IsGroupsText, links_within};
ghost use Rattle.link_limits.specs.declared.TheConstants.{MOST_PAIRS, MOST_ROWS};

use crate::preparing::Prepared;
use dedup_groups::{groups, groups_text};
use link_base::{NoMemory, PairAt, Text};
use pair_decisions::Decided;
use std::alloc::Global;

// The links of which the first record stands before the second.
fn links_within(alloc: Global, links: &[PairAt], rows: u32) -> Result<Vec<PairAt>, NoMemory>
    requires inside { All (λ (p : Pair). p.b < rows) links.now }
    ensures within { IfOk result (λ within. within.items ≡ links_within links.now) }
    ensures few { IfOk result (λ within. length within.items ≤ length links.now) }
    ensures inside { IfOk result (λ within. All (IsLinkWithin rows) within.items) }
{
    let mut within = Vec::new(alloc);
    for at in links {
        if at.a < at.b {
            within.push(*at)?;
        }
    }
    Ok(within)
}

/// The groups of the records of a file that links join, each record with the one through which it joined: a forest of the links whose first
/// record stands before the second. Both files are the same, and the pattern of a pair does not depend on which record stands first.
pub fn duplicate_lines(
    alloc: Global,
    prepared: &Prepared,
    decided: &Decided,
) -> Result<Text, NoMemory>
    requires same { length prepared.now.files.b.records ≡ length prepared.now.files.a.records }
    requires few { length prepared.now.files.a.records ≤ MOST_ROWS }
    requires few_links { length decided.now.links ≤ MOST_PAIRS }
    requires of_files { IsDecidedIn prepared.now decided.now }
    ensures { IfOk result (λ text. IsGroupsText prepared.now.files.a.records decided.now.links text) }
{
    let file = prepared.a();
    let links = links_within(alloc, decided.links(), file.rows())?;
    let found = groups(alloc, file.rows(), &links)?;
    groups_text(alloc, &found, file)
}
