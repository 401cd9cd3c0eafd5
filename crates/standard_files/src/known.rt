// Canons that were taken, by the texts and the days that have them.
ghost use Rattle.std.specs.Prelude.{◌≡◌, ◌<◌, IsTrue, length, List, ℕ, IfOk, IfSome, Some, None, slice_index_or};
ghost use Rattle.link_base.specs.Standard.{value_seen, absent_value};
ghost use Rattle.value_forms.specs.declared.canons.CompareKind.{CompareKind as Kind};
ghost use Rattle.value_forms.specs.Canons.{exact};
ghost use Rattle.standard_files.specs.Taking.{AreKnown, AreKnownCanons, AreKnownDays, IsCanonAt, IsIdOf};
ghost use Rattle.standard_files.specs.Sides.{standard_text};
ghost use Rattle.value_forms.specs.Canons.{canon_of, exact_canon};

use link_base::{NoMemory, Row, ValueRef};
use std::alloc::Global;
use value_forms::{Canon, CompareKind};
use value_pool::{Id, MaybeId};

/// A canon of a text: the field by whose kind it is one, and its id.
#[derive(Clone, Copy)]
pub(crate) struct KnownCanon {
    pub(crate) field: u8,
    pub(crate) canon: Id,
}

/// A day, and the id of its text, or that of none.
#[derive(Clone, Copy)]
pub(crate) struct KnownDay {
    pub(crate) day: i32,
    pub(crate) text: MaybeId,
}

/// The most slots of days: as many as the days of 179 years.
const MOST_SLOTS: u32 = 65_536;

/// What is known of the texts of a pool: for each place the canon that was last taken of the text there, so that a text that comes again
/// in its field is not read again, and days with the ids of their texts, each in one of so many slots, so that a day that comes
/// again is not written again.
#[derive(Drop)]
pub(crate) struct Known {
    pub(crate) canons: Vec<Option<KnownCanon>>,
    pub(crate) days: Vec<KnownDay>,
}

// Keeps the canon of a text by the kind of a field, where there is room for one of this text.
fn keep_canon(canons: &mut Vec<Option<KnownCanon>>, field: u8, text: Id, canon: Id)
    ensures { (held : List (List ℕ)) (kinds : List Kind) → IsCanonAt held kinds text (record { field = field; canon = canon }) → AreKnownCanons held kinds canons.old.items → AreKnownCanons held kinds canons.new.items }
{
    let place = text.place() as usize;
    if place < canons.len() {
        canons[place] = Some(KnownCanon { field, canon });
    }
}

// The slot of a day among so many: days that follow each other have different ones.
fn slot_of(day: i32, slots: usize) -> usize {
    day.cast_unsigned() as usize & slots.wrapping_sub(1)
}

// Keeps the id of the text of a day.
fn keep_day(days: &mut Vec<KnownDay>, value: &ValueRef<'_>, text: Id)
    ensures { (held : List (List ℕ)) → IsIdOf held (exact_canon (value_seen value.now)) (Some text) → AreKnownDays held days.old.items → AreKnownDays held days.new.items }
{
    let ValueRef::Day(day) = value else {
        return;
    };
    let slot = slot_of(*day, days.len());
    if slot < days.len() {
        days[slot] = KnownDay {
            day: *day,
            text: MaybeId::of(Some(text)),
        };
    }
}

// Whether the canon of a word is its standard text.
fn is_text_itself(kind: CompareKind) -> bool
    ensures { IsTrue result → kind ≡ exact }
{
    matches!(kind, CompareKind::Same(Canon::Whole))
}

impl Known {
    /// Nothing, with room for a canon of each of so many texts, and with slots for about so many days, a power of 2.
    pub(crate) fn new(alloc: Global, texts: u32, days: u32) -> Result<Known, NoMemory>
        ensures { IfOk result (λ known. (held : List (List ℕ)) (kinds : List Kind) → AreKnown held kinds known) }
    {
        let slots = days.min(MOST_SLOTS).next_power_of_two();
        let none = KnownDay {
            day: 0,
            text: MaybeId::of(None),
        };
        Ok(Known {
            canons: vec![in alloc; None; texts as usize]?,
            days: vec![in alloc; none; slots as usize]?,
        })
    }

    // The canon of a text by the kind of a field.
    fn find_canon(&self, field: u8, text: Id) -> Option<Id>
        ensures { IfSome result (λ canon. slice_index_or self.now.canons.items text None ≡ Some (record { field = field; canon = canon })) }
    {
        match self.canons.get(text.place() as usize) {
            Some(Some(known)) if known.field == field => Some(known.canon),
            _ => None,
        }
    }

    // The id of the text of a day, `None` for another value.
    fn find_day(&self, value: &ValueRef<'_>) -> Option<Id>
        ensures { IfSome result (λ text. (held : List (List ℕ)) → AreKnownDays held self.now.days.items → IsIdOf held (exact_canon (value_seen value.now)) (Some text)) }
    {
        let ValueRef::Day(day) = value else {
            return None;
        };
        match self.days.get(slot_of(*day, self.days.len())) {
            Some(known) if known.day == *day => known.text.get(),
            _ => None,
        }
    }

    /// The canon of the value of a row in a field of this kind, whose standard text has this id, if it is known. A value with a
    /// standard text is not looked at.
    pub(crate) fn find(
        &self,
        kind: CompareKind,
        field: u8,
        text: MaybeId,
        row: &Row<'_>,
    ) -> Option<Id>
        requires { field < length row.now }
        ensures { IfSome result (λ canon. (held : List (List ℕ)) (kinds : List Kind) → slice_index_or kinds field exact ≡ kind → IsIdOf held (standard_text (slice_index_or row.now field absent_value)) text → AreKnown held kinds self.now → IsIdOf held (canon_of kind (slice_index_or row.now field absent_value)) (Some canon)) }
    {
        match text.get() {
            Some(text) if is_text_itself(kind) => Some(text),
            Some(text) => self.find_canon(field, text),
            None if is_text_itself(kind) => self.find_day(&row.value(field as usize)),
            None => None,
        }
    }

    /// Keeps the canon of a value in a field of this kind, whose standard text has this id.
    pub(crate) fn keep(
        &mut self,
        kind: CompareKind,
        field: u8,
        text: MaybeId,
        value: &ValueRef<'_>,
        canon: Id,
    )
        ensures { (held : List (List ℕ)) (kinds : List Kind) → slice_index_or kinds field exact ≡ kind → IsIdOf held (standard_text (value_seen value.now)) text → IsIdOf held (canon_of kind (value_seen value.now)) (Some canon) → AreKnown held kinds self.old → AreKnown held kinds self.new }
    {
        match text.get() {
            Some(text) => keep_canon(&mut self.canons, field, text, canon),
            None if is_text_itself(kind) => keep_day(&mut self.days, value, canon),
            None => {}
        }
    }
}
