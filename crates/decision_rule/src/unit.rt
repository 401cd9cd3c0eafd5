// The unit that levels are counted in.
ghost use Rattle.std.specs.Prelude.{◌≡◌, ◌*◌, ◌^◌, ◌≤◌};

use link_limits::{MOST_FIELDS, WHOLE_FIELD, WHOLE_RULE};

/// The denominator of the levels of a rule over so many fields: a pattern's chance is over 1,024 to the number of fields,
/// and a cell's share over 65,536.
pub fn denominator(fields: u8) -> u128
    requires { fields ≤ MOST_FIELDS }
    ensures value { result ≡ WHOLE_FIELD ^ fields * WHOLE_RULE }
    ensures some { 1 ≤ result }
    ensures small { result ≤ 2 ^ 76 }
{
    (WHOLE_FIELD as u128).pow(u32::from(fields)) * WHOLE_RULE as u128
}
