// What names hold.
use crate::Stop;
use csv_rows::push_field;
use link_base::NoMemory;
use link_outside::MemoryStore;
use std::alloc::Global;

/// A name, and what it holds, if anything.
#[derive(Drop)]
pub(crate) struct Named {
    name: String,
    bytes: Option<Vec<u8>>,
}

/// Names, each once, in the order in which they came.
#[derive(Drop)]
pub(crate) struct Files {
    all: Vec<Named>,
}

impl Named {
    // Takes what a store holds at the name, and appends it where it is another than before.
    fn take(&mut self, alloc: Global, row: &mut Vec<u8>, store: &MemoryStore) -> Result<(), Stop> {
        let held = store.held(&self.name);
        if held == self.bytes.as_deref() {
            return Ok(());
        }
        let held = held.unwrap_or_default();
        push_cell(row, self.name.as_bytes())?;
        push_cell(row, held)?;
        self.bytes = Some(Vec::from_slice(alloc, held)?);
        Ok(())
    }
}

impl Files {
    /// No names.
    pub(crate) fn new(alloc: Global) -> Files {
        Files {
            all: Vec::new(alloc),
        }
    }

    /// Forgets all names.
    pub(crate) fn clear(&mut self) {
        self.all.clear();
    }

    // What a name holds.
    fn named(&mut self, name: &str) -> Option<&mut Named> {
        self.all.iter_mut().find(|it| it.name.as_str() == name)
    }

    /// Has a name hold bytes, or nothing.
    pub(crate) fn set(
        &mut self,
        alloc: Global,
        name: &str,
        bytes: Option<Vec<u8>>,
    ) -> Result<(), Stop> {
        if let Some(named) = self.named(name) {
            named.bytes = bytes;
            return Ok(());
        }
        let name = String::from_str(alloc, name)?;
        self.all.push(Named { name, bytes })?;
        Ok(())
    }

    /// Has a store hold what the names hold.
    pub(crate) fn hold_in(&self, alloc: Global, store: &mut MemoryStore) -> Result<(), NoMemory> {
        for named in &self.all {
            if let Some(bytes) = &named.bytes {
                store.hold(alloc, &named.name, bytes)?;
            }
        }
        Ok(())
    }

    /// Takes what a store holds, and appends each name that holds other bytes than before, and these.
    pub(crate) fn take_from(
        &mut self,
        alloc: Global,
        row: &mut Vec<u8>,
        store: &MemoryStore,
    ) -> Result<(), Stop> {
        for named in &mut self.all {
            named.take(alloc, row, store)?;
        }
        Ok(())
    }
}

/// Appends a field after a comma.
pub(crate) fn push_cell(row: &mut Vec<u8>, field: &[u8]) -> Result<(), NoMemory> {
    row.push(b',')?;
    push_field(row, field)
}
