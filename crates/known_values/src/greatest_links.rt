// Links against a plain search over all one-to-one lists.
ghost use Rattle.std.specs.Prelude.{All, IsTrue};
ghost use Rattle.assignment.specs.Solution.{HasSmallValue};
ghost use Rattle.price_check.specs.Assignment.{IsWithin};

use assignment::Assigner;
use link_base::{Candidate, NoMemory};
use link_limits::MOST_VALUE;
use price_check::are_rising;
use std::alloc::Global;

fn are_fit(candidates: &[Candidate]) -> bool
    ensures within { IsTrue result → All (IsWithin 3 3) candidates.now }
    ensures small { IsTrue result → All HasSmallValue candidates.now }
{
    candidates
        .iter()
        .all(|c| c.a < 3 && c.b < 3 && c.value <= MOST_VALUE as i32)
}

/// Nine values from -3 to 3 that a number makes, for each pair of three records a side.
fn values_from(number: u32) -> [i32; 9] {
    let mut values = [0i32; 9];
    let mut state = u64::from(number);
    for value in &mut values {
        state = state
            .wrapping_mul(6364136223846793005)
            .wrapping_add(1442695040888963407);
        *value = ((state >> 40) % 7) as i32 - 3;
    }
    values
}

/// The candidates of these values; pairs of value -3 are none.
fn candidates_of(alloc: Global, values: &[i32; 9]) -> Result<Vec<Candidate>, NoMemory> {
    let mut out = Vec::new(alloc);
    for at in 0..9u32 {
        let value = values[at as usize];
        if value > -3 {
            out.push(Candidate {
                a: at / 3,
                b: at % 3,
                weight: value,
                value,
                reviewed: false,
            })?;
        }
    }
    Ok(out)
}

/// What the best of all one-to-one lists is worth: each record of A is given one of B, and a pair that is worth less than
/// nothing is left out.
fn most_of(values: &[i32; 9]) -> i32 {
    let mut most = 0i32;
    for i in 0..3usize {
        for j in 0..3usize {
            if i != j {
                let sum = values[i]
                    .max(0)
                    .wrapping_add(values[3 + j].max(0))
                    .wrapping_add(values[9 - i - j].max(0));
                most = most.max(sum);
            }
        }
    }
    most
}

/// What the links of the assigner are worth. `None` where the candidates are none of its.
fn found_of(alloc: Global, candidates: &[Candidate]) -> Result<Option<i32>, NoMemory> {
    if candidates.len() > 9 || !are_rising(candidates) || !are_fit(candidates) {
        return Ok(None);
    }
    let solved = Assigner::new(alloc, 3, 3, candidates)?.solve();
    let values = solved.links().iter().map(|link| link.value);
    Ok(Some(values.fold(0i32, i32::wrapping_add)))
}

#[test]
fn links_are_worth_as_much_as_a_plain_search_finds(rt: HostRuntime) -> Result<(), NoMemory> {
    for number in 0..400u32 {
        let values = values_from(number);
        let candidates = candidates_of(rt.alloc(), &values)?;
        let found = found_of(rt.alloc(), &candidates)?;
        assert!(rt; found == Some(most_of(&values)), "the values from {number}");
    }
    Ok(())
}
