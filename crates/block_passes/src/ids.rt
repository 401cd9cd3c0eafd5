// The key of a row in a pass as ids of a pool.
ghost use Rattle.std.specs.Prelude.{◌≡◌, ◌<◌, ◌++◌, ℕ, List, length, option_map, IfOk, OnOk};
ghost use Rattle.value_pool.specs.Pool.{IsHeld, place_among};
ghost use Rattle.block_passes.specs.Numbering.{bytes_of_ids, id_bytes};
ghost use Rattle.block_passes.specs.Ids.{AreHeld, id_key_in, same_ids};
ghost use Rattle.block_passes.specs.Keys.{AreReadable, InRange, IsPartReadable, key_in_pass, part_key, same_key};
ghost use Rattle.value_forms.specs.declared.passes.Part.{Part as KeyPart};
ghost use Rattle.link_base.specs.declared.standard.Value.{Value};

use crate::keys::part_text;
use link_base::{NoMemory, Row};
use std::alloc::Global;
use std::marker::Model;
use value_forms::{Part, Pass, bytes_of};
use value_pool::{Id, Pool};

/// The key of a row in a pass as ids, which contracts see as the list of them, one a part.
#[derive(Drop)]
pub struct IdKey {
    ids: Vec<Id>,
    code: Vec<u8>,
}

impl Model for IdKey {
    ghost use Rattle.std.specs.Prelude.{◌≡◌, ℕ, List};
    ghost use Rattle.block_passes.specs.Numbering.{bytes_of_ids};

    ghost Value = { List ℕ };

    ghost view = { λ k. k.ids.items };

    ghost invariant = { λ k. k.code.items ≡ bytes_of_ids k.ids.items };
}

impl IdKey {
    /// The ids of the parts.
    pub fn ids(&self) -> &[Id]
        ensures { result.now ≡ self.now }
    {
        &self.ids
    }

    // The ids as bytes.
    pub(crate) fn code(&self) -> &[u8]
        ensures { result.now ≡ bytes_of_ids self.now }
    {
        &self.code
    }
}

/// Appends the bytes of an id.
pub(crate) fn push_id(code: &mut Vec<u8>, id: Id) -> Result<(), NoMemory>
    ensures { OnOk result (code.new.items ≡ code.old.items ++ id_bytes id) }
{
    let bytes = id.place().to_le_bytes();
    code.reserve(bytes.len())?;
    code.push_reserved(bytes[0]);
    code.push_reserved(bytes[1]);
    code.push_reserved(bytes[2]);
    code.push_reserved(bytes[3]);
    Ok(())
}

/// The id of the part of a key that a row has, which the pool holds.
pub(crate) fn part_id(row: &Row<'_>, part: Part, pool: &Pool) -> Option<Id>
    requires within { part.field < length row.now }
    requires readable { IsPartReadable row.now part }
    requires held { IsHeld pool.now.texts (part_key row.now part) }
    ensures { result ≡ option_map (place_among pool.now.texts) (part_key row.now part) }
{
    pool.are_distinct();
    match part_text(row, part) {
        None => None,
        Some(text) => pool.find(bytes_of(&text)),
    }
}

/// The key of a row in a blocking pass as the ids of its texts in a pool that holds them: `None`
/// exactly where some part is missing.
pub fn id_key(
    alloc: Global,
    row: &Row<'_>,
    pass: &Pass,
    pool: &Pool,
) -> Result<Option<IdKey>, NoMemory>
    requires in_range { InRange row.now pass.now }
    requires readable { AreReadable row.now pass.now }
    requires held { AreHeld pool.now.texts row.now pass.now }
    ensures { IfOk result (λ key. key ≡ id_key_in pool.now.texts row.now pass.now) }
{
    let mut ids = Vec::new(alloc);
    let mut code = Vec::new(alloc);
    for part in pass.parts() {
        match part_id(row, *part, pool) {
            None => return Ok(None),
            Some(id) => {
                push_id(&mut code, id)?;
                ids.push(id)?;
            }
        }
    }
    Ok(Some(IdKey { ids, code }))
}

/// Two keys of ids over one list of texts are present and equal exactly where the keys of texts are.
pub fn ids_tell_keys()
    ensures { (texts : List (List ℕ)) (a b : List Value) (p q : List KeyPart) → AreHeld texts a p → AreHeld texts b q
        → same_ids (id_key_in texts a p) (id_key_in texts b q) ≡ same_key (key_in_pass a p) (key_in_pass b q) }
{}
