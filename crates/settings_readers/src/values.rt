// Single values.
ghost use Rattle.std.specs.Prelude.{◌≡◌, ◌≤◌, IfOk, map};
ghost use Rattle.toml.specs.View.{view};
ghost use Rattle.settings_readers.specs.KeyFaults.{IsAnswer};
ghost use Rattle.settings_readers.specs.Values.{choice, is_within, named_in, truth, whole};

use crate::fault::KeyFault;
use crate::place::Place;
use crate::readers::{Choices, Reader};
use std::alloc::Global;
use toml::Value;

/// A text that is one of several words, and gives what the word names.
#[derive(Drop)]
pub struct Choice<C>(pub C);

impl<C: Choices> Reader for Choice<C> {
    type Item = C::Item;

    ghost gives = { λ c. choice (C.gives c.0) };

    fn read(&self, alloc: Global, place: &Place, value: &Value) -> Result<C::Item, KeyFault> {
        match value.as_str() {
            None => place.wrong_type(alloc),
            Some(text) => match self.0.named(text) {
                None => place.out_of_range(alloc),
                Some(item) => Ok(item),
            },
        }
    }
}

/// What the first of these words that is the text names.
pub fn named_in<X: Copy>(choices: &[(&str, X)], text: &str) -> Option<X>
    ensures { result ≡ named_in (map (λ c. (c.0.now, c.1)) choices.now) text.now }
{
    for (word, choice) in choices {
        if text == *word {
            return Some(*choice);
        }
    }
    None
}

fn is_within(low: u64, high: u64, number: i64) -> bool
    ensures { result ≡ is_within low high number }
{
    0 <= number && low <= number as u64 && number as u64 <= high
}

/// A whole number from `low` to `high`.
pub fn whole_number(
    alloc: Global,
    low: u64,
    high: u64,
    place: &Place,
    value: &Value,
) -> Result<u64, KeyFault>
    ensures gives { IsAnswer (whole low high place.now (view value.now)) result }
    ensures most { IfOk result (λ number. number ≤ high) }
{
    match value.as_integer() {
        None => place.wrong_type(alloc),
        Some(number) => {
            if !is_within(low, high, number) {
                return place.out_of_range(alloc);
            }
            Ok(number as u64)
        }
    }
}

/// A reader of a whole number from `low` to `high`.
#[derive(Drop)]
pub struct Whole {
    pub low: u32,
    pub high: u32,
}

impl Reader for Whole {
    type Item = u32;

    ghost gives = { λ w. whole w.low w.high };

    fn read(&self, alloc: Global, place: &Place, value: &Value) -> Result<u32, KeyFault> {
        let low = u64::from(self.low);
        let high = u64::from(self.high);
        Ok(whole_number(alloc, low, high, place, value)? as u32)
    }
}

/// A reader of a truth value.
#[derive(Drop)]
pub struct Truth;

impl Reader for Truth {
    type Item = bool;

    ghost gives = { λ _. truth };

    fn read(&self, alloc: Global, place: &Place, value: &Value) -> Result<bool, KeyFault> {
        match value.as_bool() {
            None => place.wrong_type(alloc),
            Some(holds) => Ok(holds),
        }
    }
}
