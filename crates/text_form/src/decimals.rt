// Decimal digits.
ghost use Rattle.std.specs.Prelude.{◌≡◌, ◌<◌, ◌≤◌, ◌^◌, All, length, true};
ghost use Rattle.std.specs.Char.{IsAsciiDigit, is_ascii_digit};
ghost use Rattle.std.specs.List.{list_all};
ghost use Rattle.text_form.specs.Decimals.{decimal_value, is_number};

/// The number that up to 19 decimal digits write; 0 where there is none.
pub fn decimal_value(digits: &[u8]) -> u64
    requires few { length digits.now ≤ 19 }
    requires digits { All IsAsciiDigit digits.now }
    ensures value { result ≡ decimal_value digits.now }
    ensures bound { result < 10 ^ length digits.now }
{
    let mut value = 0u64;
    for digit in digits {
        value = 10 * value + u64::from(*digit - b'0');
    }
    value
}

/// Whether all bytes are decimal digits.
fn are_digits(text: &[u8]) -> bool
    ensures { result ≡ list_all is_ascii_digit text.now }
{
    text.iter().all(|byte| byte.is_ascii_digit())
}

/// Whether a text is one decimal digit or more, and at most so many.
pub fn is_number(most: usize, text: &[u8]) -> bool
    ensures number { result ≡ is_number most text.now }
{
    !text.is_empty() && text.len() <= most && are_digits(text)
}
