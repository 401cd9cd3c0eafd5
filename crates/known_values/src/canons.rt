// The canons of a name.
ghost use Rattle.link_base.specs.Standard.{IsValid};

use link_base::{NoMemory, Text, Value};
use std::alloc::Global;
use value_forms::{Canon, End, bytes_of, canon_text, initials_text};

/// The canons of the name.
const CANONS: [(Canon, &[u8]); 4] = [
    (Canon::Whole, b"KNUTH"),
    (Canon::Soundex, b"K530"),
    (Canon::Nysiis, b"NAT"),
    (Canon::Letters(End::Front, 3), b"KNU"),
];

#[tactic(auto, using(value_forms::proofs::ReadableLemmas::readable_valid))]
fn has_canon(canon: Canon, name: &Value, wanted: &[u8]) -> bool
    requires { IsValid name.now }
{
    match canon_text(canon, &name.as_ref()) {
        Some(text) => bytes_of(&text) == wanted,
        None => false,
    }
}

fn has_canons(name: &Value) -> bool
    requires { IsValid name.now }
{
    for (canon, wanted) in CANONS {
        if !has_canon(canon, name, wanted) {
            return false;
        }
    }
    true
}

#[test]
fn known_canons(rt: HostRuntime) -> Result<(), NoMemory> {
    let alloc = rt.alloc();
    let name = Value::Word(Text::new(alloc, "KNUTH".as_bytes())?);
    assert!(rt; has_canons(&name));
    assert!(rt; initials_text(alloc, "KNUTH".as_bytes())?.bytes() == "K".as_bytes());
    Ok(())
}
