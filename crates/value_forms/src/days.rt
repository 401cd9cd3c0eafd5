// Civil days of the years 0001 to 9999, and their texts.
ghost use Rattle.std.specs.Prelude.{◌≡◌, ◌≤◌, ℤ, Some, IfSome, MatchOption, length, IsAscii};
ghost use Rattle.link_base.specs.Standard.{IsDay};
ghost use Rattle.value_forms.specs.Days.{civil_day, four_of, IsDayText, iso_day, month_day_of_day, month_of_day, one_of, text_of_day, two_of, year_of_day};

use jiff_core::civil::Date;

/// A date of the years 0001 to 9999, in the calendar of ISO 8601.
#[derive(Clone, Copy, PartialEq, Eq)]
pub struct Civil {
    /// 1 to 9999.
    pub year: u16,
    /// 1 to 12.
    pub month: u8,
    /// From 1 to the month's last day.
    pub day: u8,
}

/// The day number of a civil date of the years 0001 to 9999, counted from 1970-01-01, which is 0.
/// `None` exactly where the three numbers are no such date.
#[inline(always)]
pub fn day_of(year: u16, month: u8, day: u8) -> Option<i32>
    ensures day { result ≡ civil_day year month day }
    ensures valid { IfSome result (λ number. IsDay number) }
    ensures parts { IfSome result (λ number. (year ≡ year_of_day number) × (month ≡ month_of_day number) × (day ≡ month_day_of_day number)) }
{
    day_number(year, month, day)
}

#[inline(always)]
fn day_number(year: u16, month: u8, day: u8) -> Option<i32>
    ensures day { result ≡ civil_day year month day }
    ensures valid { IfSome result (λ number. IsDay number) }
{
    if year < 1 || year > 9999 || month > 12 || day > 31 {
        return None;
    }
    match Date::new(year as i16, month as i8, day as i8) {
        Ok(date) => Some(date.to_unix_epoch_day()),
        Err(_) => None,
    }
}

/// The date whose day number this is.
pub fn civil_of(day: i32) -> Civil
    requires { IsDay day }
    ensures day { civil_day result.year result.month result.day ≡ Some day }
    ensures parts { (result.year ≡ year_of_day day) × (result.month ≡ month_of_day day) × (result.day ≡ month_day_of_day day) }
    ensures year { result.year ≤ 9999 }
    ensures month { result.month ≤ 12 }
    ensures day_of_month { result.day ≤ 31 }
{
    let date = Date::from_days_since_min((day + 4_371_587) as u32);
    Civil {
        year: date.year as u16,
        month: date.month,
        day: date.day,
    }
}

// The number of a digit, of two and of four.
pub(crate) fn one(a: u8) -> Option<u8>
    ensures { result ≡ one_of a }
{
    if a.is_ascii_digit() {
        Some(a - b'0')
    } else {
        None
    }
}

pub(crate) fn two(a: u8, b: u8) -> Option<u8>
    ensures { result ≡ two_of a b }
{
    if a.is_ascii_digit() && b.is_ascii_digit() {
        Some(10 * (a - b'0') + (b - b'0'))
    } else {
        None
    }
}

pub(crate) fn four(a: u8, b: u8, c: u8, d: u8) -> Option<u16>
    ensures { result ≡ four_of a b c d }
{
    let high = two(a, b)?;
    let low = two(c, d)?;
    Some(100 * u16::from(high) + u16::from(low))
}

/// The text of a day, as `YYYY-MM-DD` of ISO 8601.
#[tactic(auto, unfolding(crate::specs::Days::text_of_day))]
pub fn day_text(day: i32) -> [u8; 10]
    requires { IsDay day }
    ensures text { result ≡ text_of_day day }
    ensures date { IsDayText day result }
{
    let date = civil_of(day);
    let high = (date.year / 100) as u8;
    let low = (date.year % 100) as u8;
    [
        b'0' + high / 10,
        b'0' + high % 10,
        b'0' + low / 10,
        b'0' + low % 10,
        b'-',
        b'0' + date.month / 10,
        b'0' + date.month % 10,
        b'-',
        b'0' + date.day / 10,
        b'0' + date.day % 10,
    ]
}

/// The day whose text this is, and `None` exactly where no day has it.
pub fn read_iso(text: &[u8]) -> Option<i32>
    ensures value { result ≡ iso_day text.now }
    ensures valid { IfSome result (λ day. IsDay day) }
    ensures same { IfSome result (λ day. text.now ≡ text_of_day day) }
    ensures text { MatchOption result ((day : ℤ) → ¬ IsDayText day text.now) (λ day. IsDayText day text.now) }
{
    iso(text)
}

#[tactic(auto, unfolding(crate::specs::Days::iso_day))]
fn iso(text: &[u8]) -> Option<i32>
    ensures value { result ≡ iso_day text.now }
    ensures valid { IfSome result (λ day. IsDay day) }
{
    if text.len() != 10 || text[4] != b'-' || text[7] != b'-' {
        return None;
    }
    let year = four(text[0], text[1], text[2], text[3])?;
    let month = two(text[5], text[6])?;
    let day = two(text[8], text[9])?;
    day_of(year, month, day)
}

/// Law: a day is read from its text, which is ten bytes of ASCII.
pub fn day_read_again()
    ensures same { (day : ℤ) → IsDay day → iso_day (text_of_day day) ≡ Some day }
    ensures ascii { (day : ℤ) → IsDay day → IsAscii (text_of_day day) }
    ensures long { (day : ℤ) → length (text_of_day day) ≡ 10 }
{}
