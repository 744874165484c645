// Hexadecimal digits.
ghost use Rattle.std.specs.Prelude.{◌≡◌};
ghost use Rattle.text_form.specs.Digits.{two_digits, four_digits};

/// A byte as two hexadecimal digits in lower case.
pub fn two_digits(byte: u8) -> [u8; 2]
    ensures { result ≡ two_digits byte }
{
    let mut digits = [0u8; 2];
    hex::encode_to_slice(&[byte], &mut digits).unwrap();
    digits
}

/// A word as four hexadecimal digits in lower case, its high byte first.
pub fn four_digits(word: u16) -> [u8; 4]
    ensures { result ≡ four_digits word }
{
    let mut digits = [0u8; 4];
    hex::encode_to_slice(&word.to_be_bytes(), &mut digits).unwrap();
    digits
}
