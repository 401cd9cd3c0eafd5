// The terms of a run, as keys of the top table.
ghost use Rattle.toml.specs.View.{table_view};
ghost use Rattle.settings_readers.specs.KeyFaults.{is_want};
ghost use Rattle.settings_readers.specs.Values.{whole};
ghost use Rattle.settings.specs.Settings.{number_at, truth_at};

use link_plan::TermSource;
use settings_readers::{KeyFault, Keys, Place, Reader, Truth, whole_number};
use std::alloc::Global;
use toml::Value;

/// A reader of a whole number from `low` to `high`, which may be as great as any of TOML.
#[derive(Drop)]
struct Number {
    low: u64,
    high: u64,
}

impl Reader for Number {
    type Item = u64;

    ghost gives = { λ n. whole n.low n.high };

    fn read(&self, alloc: Global, place: &Place, value: &Value) -> Result<u64, KeyFault> {
        whole_number(alloc, self.low, self.high, place, value)
    }
}

/// The keys of the table that terms stand in.
#[derive(Clone, Copy)]
pub(crate) struct TermKeys<'a>(pub(crate) Keys<'a>);

impl TermSource for TermKeys<'_> {
    type Fault = KeyFault;

    ghost is_want = { is_want };

    ghost number = { λ k. number_at (table_view k.0.table.now) k.0.above.now };

    ghost truth = { λ k. truth_at (table_view k.0.table.now) k.0.above.now };

    fn number(
        &self,
        alloc: Global,
        key: &str,
        low: u64,
        high: u64,
        default: Option<u64>,
    ) -> Result<u64, KeyFault> {
        let reader = Number { low, high };
        match default {
            None => self.0.needed(alloc, &reader, key),
            Some(default) => self.0.defaulted(alloc, &reader, default, key),
        }
    }

    fn truth(&self, alloc: Global, key: &str) -> Result<bool, KeyFault> {
        self.0.defaulted(alloc, &Truth, false, key)
    }
}
