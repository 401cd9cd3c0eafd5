// The place of a text in a pool.
ghost use Rattle.std.specs.Prelude.{◌≡◌, ◌-◌, ◌<◌, ◌^◌};

use std::marker::Model;

/// The id of a text: its place in the list of a pool's texts, from 0 and below 4,294,967,295. Contracts see it as that number.
#[derive(Clone, Copy, PartialEq, Eq)]
pub struct Id {
    place: u32,
}

impl Model for Id {
    ghost use Rattle.std.specs.Prelude.{◌-◌, ◌<◌, ◌^◌, ℕ};

    ghost Value = { ℕ };

    ghost view = { λ i. i.place };

    ghost invariant = { λ i. i.place < 2 ^ 32 - 1 };

    ghost inverse = { λ n. record { place = n } };
}

impl Id {
    /// The place.
    pub fn place(self) -> u32
        ensures { result ≡ self }
    {
        self.place
    }

    // The id of a place.
    pub(crate) fn at(place: u32) -> Id
        requires { place < 2 ^ 32 - 1 }
        ensures { result ≡ place }
    {
        Id { place }
    }
}

/// An id or none, in the room of an id. Contracts see it as an option.
#[derive(Clone, Copy)]
pub struct MaybeId {
    // One more than the place, or 0.
    code: u32,
}

impl Model for MaybeId {
    ghost use Rattle.std.specs.Prelude.{ℕ, Option};
    ghost use Rattle.value_pool.specs.MaybeIds.{code_again, code_of_id, id_in_code};

    ghost Value = { Option ℕ };

    ghost view = { λ m. id_in_code m.code };

    ghost inverse = { λ id. record { code = code_of_id id } };

    ghost inverse_ok = { λ m h i. record { code = code_again m.code i } };
}

impl MaybeId {
    /// The id in small room.
    pub fn of(id: Option<Id>) -> MaybeId
        ensures { result ≡ id }
    {
        match id {
            None => MaybeId { code: 0 },
            Some(id) => MaybeId { code: id.place + 1 },
        }
    }

    /// The id.
    pub fn get(self) -> Option<Id>
        ensures { result ≡ self }
    {
        if self.code == 0 {
            return None;
        }
        Some(Id::at(self.code - 1))
    }
}
