// Prices and links of one side.

use crate::numbers::{NONE, at, fill_up, put};
use link_base::NoMemory;
use std::alloc::Global;

/// The prices of a side's records, and the record of the other side that each is linked to.
#[derive(Drop)]
pub struct Side {
    pub records: u32,
    pub price: Vec<u32>,
    pub mate: Vec<u32>,
}

impl Side {
    /// Room for so many records.
    pub(crate) fn new(alloc: Global, records: usize) -> Result<Side, NoMemory> {
        Ok(Side {
            records: u32::try_from(records).unwrap_or(u32::MAX),
            price: Vec::with_capacity(alloc, records)?,
            mate: Vec::with_capacity(alloc, records)?,
        })
    }

    /// Whether a record has a price and no link.
    pub(crate) fn waits(&self, record: u32) -> bool {
        at(&self.mate, record) == NONE && at(&self.price, record) > 0
    }

    /// How many records wait.
    pub(crate) fn waiting(&self) -> u32 {
        let mut count = 0u32;
        for record in 0..self.records {
            if self.waits(record) {
                count = count.saturating_add(1);
            }
        }
        count
    }

    /// Puts the records there, without price or link.
    pub(crate) fn clear(&mut self) {
        fill_up(&mut self.price, self.records);
        fill_up(&mut self.mate, self.records);
        self.price.fill(0);
        self.mate.fill(NONE);
    }
}

/// Links two records. The record that the second was linked to is without a link then.
pub(crate) fn link(own: &mut Side, other: &mut Side, record: u32, mate: u32) {
    let before = at(&other.mate, mate);
    if before != NONE {
        put(&mut own.mate, before, NONE);
    }
    put(&mut own.mate, record, mate);
    put(&mut other.mate, mate, record);
}

/// The price of a record falls, and that of the record that it is linked to rises by as much.
pub(crate) fn let_fall(own: &mut Side, other: &mut Side, record: u32, fall: u32) {
    let fallen = at(&own.price, record).saturating_sub(fall);
    put(&mut own.price, record, fallen);
    let mate = at(&own.mate, record);
    if mate != NONE {
        let risen = at(&other.price, mate).saturating_add(fall);
        put(&mut other.price, mate, risen);
    }
}
