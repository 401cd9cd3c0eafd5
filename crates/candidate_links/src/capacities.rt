// The capacities of the records of a file.
ghost use Rattle.std.specs.Prelude.{◌≡◌};

use std::marker::Model;

/// How many links each record of a file may stand in, which contracts see as the list of these numbers, one for each record.
#[derive(Drop)]
pub struct Capacities {
    each: Vec<u32>,
}

impl Model for Capacities {
    ghost use Rattle.std.specs.Prelude.{List, ℕ};

    ghost Value = { List ℕ };

    ghost view = { λ c. c.each.items };
}

impl Capacities {
    // These capacities, which takes no memory.
    pub(crate) fn new(each: Vec<u32>) -> Capacities
        ensures { result ≡ each.items }
    {
        Capacities { each }
    }

    /// The capacity of each record, in the order of the records.
    pub fn each(&self) -> &[u32]
        ensures { result.now ≡ self.now }
    {
        &self.each
    }
}
