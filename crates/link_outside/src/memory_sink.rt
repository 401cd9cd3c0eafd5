// A sink in memory that fails at the calls that it is given.
ghost use Rattle.std.specs.Prelude.{◌≡◌, [], IfOk, ⊤};
ghost use Rattle.link_outside.specs.Outside.{Appends, HasCause};
ghost use Rattle.link_outside.specs.Fakes.{is_planned, next_call, TakesByPlan};

use crate::outside::{Sink, SinkError};
use link_base::NoMemory;
use std::alloc::Global;
use std::marker::Model;

/// A sink in memory that takes nothing at the calls that are planned to fail.
#[derive(Drop)]
pub struct MemorySink {
    bytes: Vec<u8>,
    plan: Vec<u32>,
    calls: u32,
    faults: u64,
}

impl Model for MemorySink {
    ghost use Rattle.link_outside.specs.Fakes.{SinkInMemory};

    ghost Value = { SinkInMemory };

    ghost view = { λ s. record { bytes = s.bytes.items; plan = s.plan.items; calls = s.calls; faults = s.faults } };
}

impl MemorySink {
    /// A sink that has taken nothing, and fails at these calls, numbered from 1.
    pub fn new(alloc: Global, plan: &[u32]) -> Result<MemorySink, NoMemory>
        ensures { IfOk result (λ sink. sink ≡ record { bytes = []; plan = plan.now; calls = 0; faults = 0 }) }
    {
        Ok(MemorySink {
            bytes: Vec::new(alloc),
            plan: Vec::from_slice(alloc, plan)?,
            calls: 0,
            faults: 0,
        })
    }

    /// The bytes taken.
    pub fn bytes(&self) -> &[u8]
        ensures { result.now ≡ self.now.bytes }
    {
        &self.bytes
    }
}

impl Sink for MemorySink {
    ghost tells = { ⊤ };

    ghost taken = { λ s. s.bytes };

    ghost faults = { λ s. s.faults };

    fn put_all(&mut self, _alloc: Global, bytes: &[u8]) -> Result<(), SinkError>
        ensures content { ⊤ → Appends bytes.now self.old.bytes self.new.bytes result }
        ensures cause { HasCause self.old.faults self.new.faults result }
        ensures planned { TakesByPlan (is_planned self.old.plan (next_call self.old.calls)) bytes.now self.old.bytes self.new.bytes result }
        ensures plan { self.new.plan ≡ self.old.plan }
        ensures calls { self.new.calls ≡ next_call self.old.calls }
    {
        self.calls = self.calls.saturating_add(1);
        if self.plan.contains(&self.calls) {
            self.faults = self.faults.saturating_add(1);
            return Err(SinkError::Failed);
        }
        match self.bytes.extend_from_slice(bytes) {
            Ok(()) => Ok(()),
            Err(_) => Err(SinkError::NoMemory),
        }
    }
}
