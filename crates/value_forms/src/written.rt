// Dates as people write them: three numbers in the order of a form.
ghost use Rattle.std.specs.Prelude.{◌≡◌, ◌+◌, ◌==◌, ◌≤◌, ◌<◌, take, drop, length, position, IfSome, Some};
ghost use Rattle.link_base.specs.Standard.{IsDay};
ghost use Rattle.value_forms.specs.Written.{date_day, day_of_parts, day_with_signs, day_without_signs, first_length, in_form, in_signs, short_number, year_number};

use crate::days::{day_of, four, one, two};
use link_base::DateForm;

fn short(run: &[u8]) -> Option<u8>
    ensures { result ≡ short_number run.now }
{
    if run.len() == 1 {
        return one(run[0]);
    }
    if run.len() == 2 {
        return two(run[0], run[1]);
    }
    None
}

fn year(run: &[u8]) -> Option<u16>
    ensures { result ≡ year_number run.now }
{
    if run.len() == 4 {
        return four(run[0], run[1], run[2], run[3]);
    }
    None
}

#[tactic(auto, unfolding(crate::specs::Written::day_of_parts))]
#[inline(always)]
fn day_of_runs(y: &[u8], m: &[u8], d: &[u8]) -> Option<i32>
    ensures value { result ≡ day_of_parts y.now m.now d.now }
    ensures valid { IfSome result (λ day. IsDay day) }
{
    let year = year(y)?;
    let month = short(m)?;
    let day = short(d)?;
    day_of(year, month, day)
}

#[tactic(auto, unfolding(crate::specs::Written::in_form))]
#[inline(always)]
fn arranged(form: DateForm, a: &[u8], b: &[u8], c: &[u8]) -> Option<i32>
    ensures value { result ≡ in_form form a.now b.now c.now }
    ensures valid { IfSome result (λ day. IsDay day) }
{
    match form {
        DateForm::Ymd => day_of_runs(a, b, c),
        DateForm::Dmy => day_of_runs(c, b, a),
        DateForm::Mdy => day_of_runs(c, a, b),
    }
}

fn is_sign(byte: u8) -> bool
    ensures { result ≡ in_signs byte }
{
    byte == b'-' || byte == b'/' || byte == b'.'
}

fn sign_place(text: &[u8]) -> Option<usize>
    ensures value { result ≡ position in_signs text.now }
    ensures bound { IfSome result (λ i. i < length text.now) }
{
    text.iter().position(|c| is_sign(*c))
}

fn place_of(sign: u8, text: &[u8]) -> Option<usize>
    ensures value { result ≡ position (λ c. c == sign) text.now }
    ensures bound { IfSome result (λ i. i < length text.now) }
{
    text.iter().position(|c| *c == sign)
}

// What stands before a place and behind it.
fn cut_at(text: &[u8], at: usize) -> (&[u8], &[u8])
    requires { at < length text.now }
    ensures front { result.0.now ≡ take at text.now }
    ensures back { result.1.now ≡ drop (at + 1) text.now }
{
    (&text[..at], &text[at + 1..])
}

#[tactic(auto, unfolding(crate::specs::Written::day_with_signs))]
#[inline(never)]
fn signed(form: DateForm, text: &[u8]) -> Option<i32>
    ensures value { result ≡ day_with_signs form text.now }
    ensures valid { IfSome result (λ day. IsDay day) }
{
    let i = sign_place(text)?;
    let sign = text[i];
    let (first, rest) = cut_at(text, i);
    let j = place_of(sign, rest)?;
    let (second, third) = cut_at(rest, j);
    arranged(form, first, second, third)
}

fn first_run(form: DateForm) -> usize
    ensures value { result ≡ first_length form }
    ensures bound { result ≤ 4 }
{
    match form {
        DateForm::Ymd => 4,
        DateForm::Dmy | DateForm::Mdy => 2,
    }
}

// A date of ten bytes, as most are, has its signs at the places of its form, and is cut there without a search.
#[inline(always)]
fn placed_at(form: DateForm, n: usize, text: &[u8]) -> Option<i32>
    requires first { n ≡ first_length form }
    requires few { n ≤ 4 }
    requires whole { length text.now ≡ 10 }
    ensures value { IfSome result (λ day. day_with_signs form text.now ≡ Some day) }
    ensures valid { IfSome result (λ day. IsDay day) }
{
    let (first, rest) = cut_at(text, n);
    let (second, third) = cut_at(rest, 2);
    if !is_sign(text[n]) || rest[2] != text[n] {
        return None;
    }
    arranged(form, first, second, third)
}

fn placed(form: DateForm, text: &[u8]) -> Option<i32>
    ensures value { IfSome result (λ day. day_with_signs form text.now ≡ Some day) }
    ensures valid { IfSome result (λ day. IsDay day) }
{
    if text.len() != 10 {
        return None;
    }
    match form {
        DateForm::Ymd => placed_at(form, 4, text),
        DateForm::Dmy | DateForm::Mdy => placed_at(form, 2, text),
    }
}

#[tactic(auto, unfolding(crate::specs::Written::day_without_signs))]
#[inline(never)]
fn plain(form: DateForm, text: &[u8]) -> Option<i32>
    ensures value { result ≡ day_without_signs form text.now }
    ensures valid { IfSome result (λ day. IsDay day) }
{
    if text.len() != 8 {
        return None;
    }
    let n = first_run(form);
    let (first, rest) = text.split_at(n);
    let (second, third) = rest.split_at(2);
    arranged(form, first, second, third)
}

/// The day that a text writes in this form: three runs of digits in the order of the form with two
/// equal signs out of `-`, `/` and `.` between them, the year of four digits, month and day of one or
/// two; or eight digits without signs. `None` for every other text, and where there is no such date.
#[tactic(auto, unfolding(crate::specs::Written::date_day))]
pub fn read_date(form: DateForm, text: &[u8]) -> Option<i32>
    ensures value { result ≡ date_day form text.now }
    ensures valid { IfSome result (λ day. IsDay day) }
{
    if let Some(day) = placed(form, text) {
        return Some(day);
    }
    match signed(form, text) {
        Some(day) => Some(day),
        None => plain(form, text),
    }
}
