// The place of an edge, or none.
ghost use Rattle.std.specs.Prelude.{◌≡◌, ◌-◌, ◌<◌, ◌^◌, length, None, Some, is_some};
ghost use Rattle.assignment_steps.specs.Market.{link};

use std::marker::Model;

/// The place of an edge or none, in four bytes. Contracts see it as an option.
#[derive(Clone, Copy)]
pub struct MaybeEdge {
    // One more than the place, or 0.
    code: u32,
}

impl Model for MaybeEdge {
    ghost use Rattle.std.specs.Prelude.{ℕ, Option};
    ghost use Rattle.assignment_steps.specs.Kept.{code_again, code_of_edge, edge_in_code};

    ghost Value = { Option ℕ };

    ghost view = { λ m. edge_in_code m.code };

    ghost inverse = { λ edge. record { code = code_of_edge edge } };

    ghost inverse_ok = { λ m h i. record { code = code_again m.code i } };
}

impl MaybeEdge {
    /// No edge.
    pub fn none() -> MaybeEdge
        ensures { result ≡ None }
    {
        MaybeEdge { code: 0 }
    }

    /// The edge at a place.
    #[inline(always)]
    pub fn at(place: usize) -> MaybeEdge
        requires { place < 2 ^ 32 - 1 }
        ensures { result ≡ Some place }
    {
        MaybeEdge {
            code: place as u32 + 1,
        }
    }

    /// The place.
    #[inline(always)]
    fn get(self) -> Option<usize>
        ensures { result ≡ self }
    {
        if self.code == 0 {
            return None;
        }
        Some((self.code - 1) as usize)
    }
}

/// The edge that links a record, if one does.
#[inline(always)]
pub fn link_of(links: &[MaybeEdge], position: usize) -> Option<usize>
    requires { position < length links.now }
    ensures { result ≡ link links.now position }
{
    links[position].get()
}

/// Whether an edge links a record.
#[inline(always)]
pub fn has_link(links: &[MaybeEdge], position: usize) -> bool
    requires { position < length links.now }
    ensures { result ≡ is_some (link links.now position) }
{
    link_of(links, position).is_some()
}
