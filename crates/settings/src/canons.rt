// The canons that words name, with their numbers.
ghost use Rattle.toml.specs.View.{table_view};
ghost use Rattle.settings_readers.specs.KeyFaults.{IsAnswer};
ghost use Rattle.settings.specs.Words.{numbered};

use link_plan::MOST_LETTERS;
use settings_readers::{KeyFault, Keys, Whole};
use std::alloc::Global;
use value_forms::Canon;

/// The canon that a word names, with its number where it has one.
#[tactic(auto, unfolding(crate::specs::Words::numbered))]
pub(crate) fn numbered(alloc: Global, canon: Canon, keys: &Keys) -> Result<Canon, KeyFault>
    ensures { IsAnswer (numbered canon (table_view keys.now.table.now) keys.now.above.now) result }
{
    if canon.letters().is_some() {
        let most = Whole {
            low: 1,
            high: MOST_LETTERS as u32,
        };
        let number = keys.needed(alloc, &most, "n")?;
        let letters = number as u8;
        return Ok(canon.with_letters(letters));
    }
    keys.without(alloc, "n", canon)
}
