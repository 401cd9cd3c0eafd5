// The blocking passes of a plan, by the canons that make their keys.
ghost use Rattle.std.specs.Prelude.{◌≡◌};

use crate::canons::Canon;
use std::marker::Model;

/// A part of a key: a field by its place, and the canon that makes the part.
#[derive(Clone, Copy, PartialEq, Eq)]
pub struct Part {
    pub field: u8,
    pub key: Canon,
}

/// A blocking pass, which contracts see as the list of the parts of its key.
#[derive(Drop)]
pub struct Pass {
    parts: Vec<Part>,
}

impl Model for Pass {
    ghost use Rattle.std.specs.Prelude.{List};
    ghost use Rattle.value_forms.specs.declared.passes.Part.{Part};

    ghost Value = { List Part };

    ghost view = { λ p. p.parts.items };
}

impl Pass {
    /// The pass whose key has these parts.
    pub fn new(parts: Vec<Part>) -> Pass
        ensures { result ≡ parts.items }
    {
        Pass { parts }
    }

    /// The parts.
    pub fn parts(&self) -> &[Part]
        ensures { result.now ≡ self.now }
    {
        &self.parts
    }
}

/// Blocking passes, which contracts see as the list of them.
#[derive(Drop)]
pub struct PassList {
    passes: Vec<Pass>,
}

impl Model for PassList {
    ghost use Rattle.std.specs.Prelude.{List};
    ghost use Rattle.value_forms.specs.declared.passes.Part.{Part};

    ghost Value = { List (List Part) };

    ghost view = { λ p. p.passes.items };
}

impl PassList {
    /// The list of these passes.
    pub fn new(passes: Vec<Pass>) -> PassList
        ensures { result ≡ passes.items }
    {
        PassList { passes }
    }

    /// The passes.
    pub fn passes(&self) -> &[Pass]
        ensures { result.now ≡ self.now }
    {
        &self.passes
    }
}
