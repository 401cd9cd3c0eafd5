// What was loaded, and in which state it was.
ghost use Rattle.std.specs.Prelude.{◌≡◌, ◌≢◌, ◌↔◌, All, Any, IsTrue};
ghost use Rattle.std.specs.Bool.{OnFalse, OnTrue};
ghost use Rattle.host_outside.specs.HostFile.{IsSameFile};

use super::host_file::FileState;
use link_base::Text;

/// A name that was loaded, and the state of its file before it was read.
#[derive(Drop)]
pub struct Loaded {
    pub name: Text,
    pub state: FileState,
}

/// Whether this is a load of a name.
pub fn is_of(loaded: &Loaded, name: &str) -> bool
    ensures { IsTrue result ↔ (loaded.now.name ≡ name.now) }
{
    loaded.name.bytes() == name.as_bytes()
}

// Whether a load of a name has noted this state; one of another name has not noted another.
fn fits(loaded: &Loaded, name: &str, state: &FileState) -> bool
    ensures fits { OnTrue result (loaded.now.name ≡ name.now → loaded.now.state ≡ state.now) }
    ensures other { OnFalse result ((loaded.now.name ≡ name.now) × (loaded.now.state ≢ state.now)) }
{
    if is_of(loaded, name) {
        return loaded.state == *state;
    }
    true
}

/// Whether a name was loaded.
pub fn is_loaded(loads: &[Loaded], name: &str) -> bool
    ensures found { OnTrue result (Any (λ loaded. loaded.name ≡ name.now) loads.now) }
    ensures none { OnFalse result (All (λ loaded. loaded.name ≢ name.now) loads.now) }
{
    for loaded in loads {
        if is_of(loaded, name) {
            return true;
        }
    }
    false
}

/// Whether each load of a name has noted this state.
pub fn is_noted(loads: &[Loaded], name: &str, state: &FileState) -> bool
    ensures noted { OnTrue result (All (λ loaded. loaded.name ≡ name.now → loaded.state ≡ state.now) loads.now) }
    ensures other { OnFalse result (Any (λ loaded. (loaded.name ≡ name.now) × (loaded.state ≢ state.now)) loads.now) }
{
    for loaded in loads {
        if !fits(loaded, name, state) {
            return false;
        }
    }
    true
}

/// Whether a file is one that was loaded under another name.
pub fn is_other_input(loads: &[Loaded], name: &str, state: &FileState) -> bool
    ensures found { OnTrue result (Any (λ loaded. (loaded.name ≢ name.now) × IsSameFile loaded.state state.now) loads.now) }
    ensures none { OnFalse result (All (λ loaded. IsSameFile loaded.state state.now → loaded.name ≡ name.now) loads.now) }
{
    for loaded in loads {
        if !is_of(loaded, name) && loaded.state.is_same_file(state) {
            return true;
        }
    }
    false
}
