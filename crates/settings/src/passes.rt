// A pass's table, and its parts.
ghost use Rattle.settings.specs.Pass.{field_named, part, parts, pass, passes};

use crate::canons::numbered;
use crate::words::KeysOf;
use link_base::FieldSort;
use link_plan::{FieldList, MOST_PARTS, MOST_PASSES};
use settings_readers::{Choice, Choices, Items, KeyFault, Keys, Place, Reader, Row, Rows};
use std::alloc::Global;
use toml::Value;
use value_forms::{Part, Pass, PassList};

const PASS_KEYS: [&str; 1] = ["parts"];

const PART_KEYS: [&str; 3] = ["field", "key", "n"];

/// One to four parts, over these fields.
#[derive(Clone, Copy)]
struct Parts<'a> {
    fields: &'a FieldList,
}

impl Choices for Parts<'_> {
    type Item = (u8, FieldSort);

    ghost gives = { λ p. field_named p.fields.now 0 };

    fn named(&self, text: &str) -> Option<(u8, FieldSort)> {
        let mut number = 0u8;
        for field in self.fields.fields() {
            if field.is_named(text.as_bytes()) {
                return Some((number, field.sort));
            }
            number += 1;
        }
        None
    }
}

impl Row for Parts<'_> {
    type Item = Part;

    ghost gives = { λ p before. part p.fields.now };

    #[tactic(auto, unfolding(crate::specs::Pass::part))]
    fn read(&self, alloc: Global, _before: &[Part], keys: &Keys) -> Result<Part, KeyFault> {
        keys.known(alloc, &PART_KEYS, &[])?;
        let (field, sort) = keys.needed(alloc, &Choice(*self), "field")?;
        let named = keys.needed(alloc, &Choice(KeysOf(sort)), "key")?;
        let key = numbered(alloc, named, keys)?;
        Ok(Part { field, key })
    }
}

impl Reader for Parts<'_> {
    type Item = Pass;

    ghost gives = { λ p. parts p.fields.now };

    fn read(&self, alloc: Global, place: &Place, value: &Value) -> Result<Pass, KeyFault> {
        let rows = Items {
            low: 1,
            high: MOST_PARTS,
            element: Rows(*self),
        };
        Ok(Pass::new(rows.read(alloc, place, value)?))
    }
}

/// One to eight passes, over these fields.
#[derive(Clone, Copy)]
pub(crate) struct Passes<'a> {
    pub(crate) fields: &'a FieldList,
}

impl Row for Passes<'_> {
    type Item = Pass;

    ghost gives = { λ p before. pass p.fields.now };

    #[tactic(auto, unfolding(crate::specs::Pass::pass))]
    fn read(&self, alloc: Global, _before: &[Pass], keys: &Keys) -> Result<Pass, KeyFault> {
        keys.known(alloc, &PASS_KEYS, &[])?;
        let parts = Parts {
            fields: self.fields,
        };
        keys.needed(alloc, &parts, "parts")
    }
}

impl Reader for Passes<'_> {
    type Item = PassList;

    ghost gives = { λ p. passes p.fields.now };

    fn read(&self, alloc: Global, place: &Place, value: &Value) -> Result<PassList, KeyFault> {
        let rows = Items {
            low: 1,
            high: MOST_PASSES,
            element: Rows(*self),
        };
        Ok(PassList::new(rows.read(alloc, place, value)?))
    }
}
