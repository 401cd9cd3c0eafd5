// The rows of each pass.
ghost use Rattle.std.specs.Prelude.{◌≡◌, ◌<◌, ℕ, [], length, slice_index_or, IfOk, IfSome, IsTrue, ◌↔◌};
ghost use Rattle.pair_walk.specs.Rows.{AreAllReady};
ghost use Rattle.pair_walk.specs.Joining.{AreFoundRows, AreKeyed, ArePassRows};

use block_passes::{KeyedPool, PassRows};
use link_base::{NoMemory, StdFile};
use std::alloc::Global;
use value_forms::{Part, Pass, PassList};

fn same_parts(p: &[Part], q: &[Part]) -> bool
    ensures { IsTrue result ↔ (p.now ≡ q.now) }
{
    p == q
}

// Whether a pass is equal to an earlier one.
fn is_repeated(passes: &[Pass], at: usize) -> bool
    requires { at < length passes.now }
    ensures { IsTrue result → (k : ℕ) × (k < at) × (slice_index_or passes.now k [] ≡ slice_index_or passes.now at []) }
{
    for earlier in &passes[..at] {
        if same_parts(earlier.parts(), passes[at].parts()) {
            return true;
        }
    }
    false
}

// The rows of the pass `at`, by ids where they are given.
fn pass_rows(
    alloc: Global,
    a: &StdFile,
    b: &StdFile,
    passes: &PassList,
    at: usize,
    keyed: Option<&KeyedPool<'_>>,
) -> Result<PassRows, NoMemory>
    requires at { at < length passes.now }
    requires ready_a { AreAllReady passes.now a.now }
    requires ready_b { AreAllReady passes.now b.now }
    requires keyed { IfSome keyed (λ keyed. AreKeyed passes.now a.now b.now keyed.now) }
    ensures { IfOk result (ArePassRows (slice_index_or passes.now at []) a.now b.now) }
{
    match keyed {
        None => PassRows::new(alloc, a, b, &passes.passes()[at]),
        Some(keyed) => PassRows::new_in(alloc, a, b, passes, at, keyed),
    }
}

/// The rows of the passes, those of equal passes once.
pub(crate) fn find_passes(
    alloc: Global,
    a: &StdFile,
    b: &StdFile,
    passes: &PassList,
    keyed: Option<&KeyedPool<'_>>,
) -> Result<Vec<PassRows>, NoMemory>
    requires ready_a { AreAllReady passes.now a.now }
    requires ready_b { AreAllReady passes.now b.now }
    requires keyed { IfSome keyed (λ keyed. AreKeyed passes.now a.now b.now keyed.now) }
    ensures { IfOk result (λ found. AreFoundRows passes.now (length passes.now) a.now b.now found.items) }
{
    let mut found = Vec::new(alloc);
    for at in 0..passes.passes().len() {
        if !is_repeated(passes.passes(), at) {
            found.push(pass_rows(alloc, a, b, passes, at, keyed)?)?;
        }
    }
    Ok(found)
}
