// The numbers of the parts.
ghost use Rattle.std.specs.Prelude.{◌≡◌, ◌+◌, ◌<◌, ◌^◌, ℕ, All, AllPairs, IfOk, length, slice_index};
ghost use Rattle.price_check.specs.Assignment.{IsBefore};
ghost use Rattle.price_check.specs.PartNumbers.{ArePartNumbers, candidate};
ghost use Rattle.price_check.specs.Forest.{AreByTop, AreLast, AreUnited, IsLast, PointsUp, top};

use crate::forest::unite;
use link_base::{Candidate, NoMemory};
use std::alloc::Global;

/// The number of the part of each candidate, and how many parts there are.
#[derive(Drop)]
pub struct PartNumbers {
    pub numbers: Vec<u32>,
    pub parts: u32,
}

/// Unites the candidate at place `k` with the one before it, where that has its record of A.
fn unite_record_a(candidates: &[Candidate], up: &mut [usize], k: usize)
    requires place { k < length candidates.now }
    requires rising { AllPairs IsBefore candidates.now }
    requires united { AreUnited candidates.now up.old k }
    ensures united { AreUnited candidates.now up.new k }
    ensures here { (i : ℕ) → i < k → (candidate candidates.now i).a ≡ (candidate candidates.now k).a → top up.new i ≡ top up.new k }
{
    if k == 0 {
        return;
    }
    if candidates[k - 1].a != candidates[k].a {
        return;
    }
    unite(up, k - 1, k);
}

/// Unites the candidate at place `k` with the last one before it that has its record of B.
fn unite_record_b(candidates: &[Candidate], up: &mut [usize], last: Option<usize>, k: usize)
    requires place { k < length candidates.now }
    requires united { AreUnited candidates.now up.old k }
    requires here { (i : ℕ) → i < k → (candidate candidates.now i).a ≡ (candidate candidates.now k).a → top up.old i ≡ top up.old k }
    requires last { IsLast candidates.now k (candidate candidates.now k).b last }
    ensures { AreUnited candidates.now up.new (k + 1) }
{
    let Some(earlier) = last else {
        return;
    };
    unite(up, earlier, k);
}

/// Unites the candidate at place `k` with the earlier ones that share a record with it.
fn unite_at(candidates: &[Candidate], up: &mut [usize], last: &mut [Option<usize>], k: usize)
    requires place { k < length candidates.now }
    requires rising { AllPairs IsBefore candidates.now }
    requires within { All (λ c. c.b < length last.old) candidates.now }
    requires united { AreUnited candidates.now up.old k }
    requires last { AreLast candidates.now last.old k }
    ensures united { AreUnited candidates.now up.new (k + 1) }
    ensures last { AreLast candidates.now last.new (k + 1) }
{
    let b = candidates[k].b as usize;
    unite_record_a(candidates, up, k);
    unite_record_b(candidates, up, last[b], k);
    last[b] = Some(k);
}

/// Unites all candidates that share a record.
fn unite_all(candidates: &[Candidate], up: &mut [usize], last: &mut [Option<usize>])
    requires rising { AllPairs IsBefore candidates.now }
    requires within { All (λ c. c.b < length last.old) candidates.now }
    requires united { AreUnited candidates.now up.old 0 }
    requires last { AreLast candidates.now last.old 0 }
    ensures { AreUnited candidates.now up.new (length candidates.now) }
{
    for k in 0..candidates.len() {
        unite_at(candidates, up, last, k);
    }
}

/// So many places, of which each points to itself.
fn single_places(alloc: Global, count: usize) -> Result<Vec<usize>, NoMemory>
    ensures count { IfOk result (λ up. length up.items ≡ count) }
    ensures single { IfOk result (λ up. (x : ℕ) → x < count → slice_index up.items x ≡ x) }
{
    let mut up = vec![in alloc; 0usize; count]?;
    for i in 0..count {
        up[i] = i;
    }
    Ok(up)
}

/// Numbers the tops in their order, and each place as its top.
fn number(up: &[usize], numbers: &mut [u32]) -> u32
    requires earlier { PointsUp up.now }
    requires count { length numbers.old ≡ length up.now }
    requires few { length up.now < 2 ^ 32 }
    ensures { AreByTop up.now numbers.new (length up.now) result }
{
    let mut parts = 0;
    for i in 0..up.len() {
        if up[i] == i {
            numbers[i] = parts;
            parts += 1;
            continue;
        }
        numbers[i] = numbers[up[i]];
    }
    parts
}

/// The parts of candidates that rise strictly by record of A, then of B: two candidates are of one part exactly
/// where a chain of candidates leads from one to the other in which each shares a record with the next.
/// Parts are numbered from 0 in the order of their first candidates.
pub fn part_numbers(
    alloc: Global,
    rows_b: u32,
    candidates: &[Candidate],
) -> Result<PartNumbers, NoMemory>
    requires count { length candidates.now < 2 ^ 32 }
    requires rising { AllPairs IsBefore candidates.now }
    requires within { All (λ c. c.b < rows_b) candidates.now }
    ensures { IfOk result (λ p. ArePartNumbers candidates.now p.numbers.items p.parts) }
{
    let mut up = single_places(alloc, candidates.len())?;
    let mut last: Vec<Option<usize>> = vec![in alloc; None; rows_b as usize]?;
    unite_all(candidates, &mut up, &mut last);
    let mut numbers = vec![in alloc; 0u32; candidates.len()]?;
    let parts = number(&up, &mut numbers);
    Ok(PartNumbers { numbers, parts })
}
