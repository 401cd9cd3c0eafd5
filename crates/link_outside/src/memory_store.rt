// A store in memory that fails at the calls that it is given.
ghost use Rattle.std.specs.Prelude.{◌≡◌, ◌+◌, ◌^◌, ◌<◌, ◌∷◌, [], false, true, IfOk, OnErr, OnOk, option_map, ⊤};
ghost use Rattle.link_outside.specs.Fakes.{held_in, memory_held, StoreInMemory, failure_at, LoadsByPlan, next_call, PutsByPlan};
ghost use Rattle.link_outside.specs.Outside.{held_with, IsWithinLimit, Loads, LogsFailure, PutsAs, Shows};

use crate::outside::{Load, Store, StoreCall, StoreError, entry_of_call};
use link_base::{NoMemory, Text};
use std::alloc::Global;
use std::marker::Model;

/// A planned failure: the number of a call, from 1, loads and puts counted together. A failing put
/// that is applied has written its bytes.
#[derive(Clone, Copy, PartialEq, Eq)]
pub struct Failure {
    pub call: u32,
    pub applied: bool,
}

#[derive(Drop)]
struct Entry {
    name: Text,
    bytes: Text,
}

/// A store in memory with planned failures, in which the first entry with a name counts. A load of a name that is not
/// held fails too.
#[derive(Drop)]
pub struct MemoryStore {
    entries: Vec<Entry>,
    plan: Vec<Failure>,
    calls: u32,
    faults: Vec<StoreCall>,
}

impl Model for MemoryStore {
    ghost use Rattle.link_outside.specs.Fakes.{StoreInMemory};

    ghost Value = { StoreInMemory };

    ghost view = { λ s. record {
      entries = s.entries.items;
      plan = s.plan.items;
      calls = s.calls;
      faults = s.faults.items;
    } };
}

impl MemoryStore {
    /// A store that holds no name, and fails at these calls.
    pub fn new(alloc: Global, plan: &[Failure]) -> Result<MemoryStore, NoMemory>
        ensures { IfOk result (λ store. store ≡ record { entries = []; plan = plan.now; calls = 0; faults = [] }) }
    {
        Ok(MemoryStore {
            entries: Vec::new(alloc),
            plan: Vec::from_slice(alloc, plan)?,
            calls: 0,
            faults: Vec::new(alloc),
        })
    }

    /// Has a name hold these bytes. It counts as no call, and changes nothing where it is refused.
    pub fn hold(&mut self, alloc: Global, name: &str, bytes: &[u8]) -> Result<(), NoMemory>
        ensures ok { OnOk result (memory_held self.new ≡ held_with name.now bytes.now (memory_held self.old)) }
        ensures err { OnErr result (self.new.entries ≡ self.old.entries) }
        ensures plan { self.new.plan ≡ self.old.plan }
        ensures calls { self.new.calls ≡ self.old.calls }
        ensures faults { self.new.faults ≡ self.old.faults }
    {
        add(alloc, &mut self.entries, name.as_bytes(), bytes)
    }

    /// What a name holds.
    pub fn held(&self, name: &str) -> Option<&[u8]>
        ensures { option_map (λ s. s.now) result ≡ memory_held self.now name.now }
    {
        find(&self.entries, name.as_bytes())
    }
}

// The failure that is planned at a call.
fn failure_of(plan: &[Failure], call: u32) -> Option<Failure>
    ensures { result ≡ failure_at plan.now call }
{
    plan.iter().copied().find(|fail| fail.call == call)
}

// What a name holds.
fn find<'a>(entries: &'a [Entry], name: &[u8]) -> Option<&'a [u8]>
    ensures { option_map (λ s. s.now) result ≡ held_in entries.now name.now }
{
    for entry in entries {
        if entry.name.bytes() == name {
            return Some(entry.bytes.bytes());
        }
    }
    None
}

fn add(alloc: Global, entries: &mut Vec<Entry>, name: &[u8], bytes: &[u8]) -> Result<(), NoMemory>
    ensures ok { OnOk result (entries.new.items ≡ record { name = name.now; bytes = bytes.now } ∷ entries.old.items) }
    ensures err { OnErr result (entries.new.items ≡ entries.old.items) }
{
    let name = Text::new(alloc, name)?;
    let bytes = Text::new(alloc, bytes)?;
    entries.insert(0, Entry { name, bytes })?;
    Ok(())
}

// What a load of these bytes gives.
fn cut_to(alloc: Global, bytes: &[u8], limit: u64) -> Result<Load, NoMemory>
    requires { limit + 1 < 2 ^ 64 }
    ensures within { IfOk result (IsWithinLimit limit) }
    ensures content { IfOk result (Shows bytes.now limit) }
{
    if bytes.len() as u64 <= limit {
        return Ok(Load::Whole(Text::new(alloc, bytes)?));
    }
    let front = &bytes[..limit as usize + 1];
    Ok(Load::Over(Text::new(alloc, front)?))
}

impl Store for MemoryStore {
    ghost tells = { ⊤ };

    ghost held = { memory_held };

    ghost faults = { λ s. s.faults };

    fn load(&mut self, alloc: Global, name: &str, limit: u64) -> Result<Load, StoreError>
        requires { limit + 1 < 2 ^ 64 }
        ensures within { IfOk result (IsWithinLimit limit) }
        ensures content { ⊤ → Loads (memory_held self.old name.now) limit result }
        ensures unchanged { memory_held self.new ≡ memory_held self.old }
        ensures cause { LogsFailure self.old.faults self.new.faults (record { put = false; name = name.now }) result }
        ensures planned { LoadsByPlan (failure_at self.old.plan (next_call self.old.calls)) (memory_held self.old name.now) limit result }
        ensures plan { self.new.plan ≡ self.old.plan }
        ensures calls { self.new.calls ≡ next_call self.old.calls }
    {
        self.calls = self.calls.saturating_add(1);
        let entry = entry_of_call(alloc, &mut self.faults, false, name)?;
        match failure_of(&self.plan, self.calls) {
            None => match find(&self.entries, name.as_bytes()) {
                Some(bytes) => Ok(cut_to(alloc, bytes, limit)?),
                None => {
                    self.faults.push_reserved(entry);
                    Err(StoreError::Failed)
                }
            },
            Some(_) => {
                self.faults.push_reserved(entry);
                Err(StoreError::Failed)
            }
        }
    }

    fn put(&mut self, alloc: Global, name: &str, bytes: &[u8]) -> Result<(), StoreError>
        ensures content { ⊤ → PutsAs (held_with name.now bytes.now (memory_held self.old)) (memory_held self.old) (memory_held self.new) result }
        ensures cause { LogsFailure self.old.faults self.new.faults (record { put = true; name = name.now }) result }
        ensures planned { PutsByPlan (failure_at self.old.plan (next_call self.old.calls)) (held_with name.now bytes.now (memory_held self.old)) (memory_held self.old) (memory_held self.new) result }
        ensures plan { self.new.plan ≡ self.old.plan }
        ensures calls { self.new.calls ≡ next_call self.old.calls }
    {
        self.calls = self.calls.saturating_add(1);
        let entry = entry_of_call(alloc, &mut self.faults, true, name)?;
        match failure_of(&self.plan, self.calls) {
            None => Ok(add(alloc, &mut self.entries, name.as_bytes(), bytes)?),
            Some(failure) => {
                if failure.applied {
                    add(alloc, &mut self.entries, name.as_bytes(), bytes)?;
                }
                self.faults.push_reserved(entry);
                Err(StoreError::Failed)
            }
        }
    }
}
