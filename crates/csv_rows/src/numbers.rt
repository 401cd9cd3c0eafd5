// The numbers that texts write.
ghost use Rattle.std.specs.Prelude.{◌≡◌, ◌&&◌, ◌≤◌, ◌<◌, ◌^◌, IfSome, decimal, is_some, nat_le, true, ℕ};
ghost use Rattle.std.specs.Char.{is_ascii_digit};
ghost use Rattle.std.specs.List.{list_all};
ghost use Rattle.csv_rows.specs.Numbers.{is_decimal, number_in};

// The number of these digits, where it is at most `most`.
fn number_in_digits(digits: &[u8], most: u32) -> Option<u32>
    requires { most ≤ 10 ^ 8 }
    ensures some { is_some result ≡ (list_all is_ascii_digit digits.now && nat_le (number_in digits.now) most) }
    ensures value { IfSome result (λ n. n ≡ number_in digits.now) }
{
    let mut number = 0;
    for digit in digits {
        if !digit.is_ascii_digit() {
            return None;
        }
        number = number * 10 + u32::from(*digit - b'0');
        if number > most {
            return None;
        }
    }
    Some(number)
}

/// The number that a text writes in decimal digits without a leading zero or a sign, where it is at most `most`, which may be
/// up to 100,000,000.
pub fn read_decimal(text: &[u8], most: u32) -> Option<u32>
    requires { most ≤ 10 ^ 8 }
    ensures some { is_some result ≡ (is_decimal text.now && nat_le (number_in text.now) most) }
    ensures value { IfSome result (λ n. n ≡ number_in text.now) }
{
    if text.is_empty() || (text.len() > 1 && text[0] == b'0') {
        return None;
    }
    number_in_digits(text, most)
}

/// Law: the decimal digits of a number are read as this number.
#[tactic(auto, using(crate::specs::NumberLaws::decimal_is_decimal, crate::specs::NumberLaws::number_in_decimal))]
pub fn decimals_are_read()
    ensures digits { (n : ℕ) → n < 2 ^ 64 → is_decimal (decimal n) ≡ true }
    ensures value { (n : ℕ) → n < 2 ^ 64 → number_in (decimal n) ≡ n }
{}
