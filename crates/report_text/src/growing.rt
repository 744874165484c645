// Reports that grow.
ghost use Rattle.std.specs.Prelude.{◌≡◌, ◌++◌, OnOk, decimal};
ghost use Rattle.std.specs.Fmt.{signed_decimal};
ghost use Rattle.text_form.specs.Digits.{two_digits, four_digits};
ghost use Rattle.report_text.specs.Texts.{shown_byte, shown_text};

use crate::OutOfMemory;
use text_form::{four_digits, two_digits};

/// Prints a number in decimal digits.
pub fn put_number(report: &mut Vec<u8>, number: usize) -> Result<(), OutOfMemory>
    ensures { OnOk result (report.new.items ≡ report.old.items ++ decimal number) }
{
    let mut buffer = itoa::Buffer::new();
    report.extend_from_slice(buffer.format(number).as_bytes())
}

/// Prints a name, and a number after it.
pub fn put_named(report: &mut Vec<u8>, name: &[u8], number: u64) -> Result<(), OutOfMemory>
    ensures { OnOk result (report.new.items ≡ report.old.items ++ name.now ++ decimal number) }
{
    report.extend_from_slice(name)?;
    let mut buffer = itoa::Buffer::new();
    report.extend_from_slice(buffer.format(number).as_bytes())
}

/// Prints a name, and a number after it, with a minus sign where it is below 0.
pub fn put_signed(report: &mut Vec<u8>, name: &[u8], number: i64) -> Result<(), OutOfMemory>
    ensures { OnOk result (report.new.items ≡ report.old.items ++ name.now ++ signed_decimal number) }
{
    report.extend_from_slice(name)?;
    let mut buffer = itoa::Buffer::new();
    report.extend_from_slice(buffer.format(number).as_bytes())
}

/// Prints a byte as two hexadecimal digits.
pub fn put_two_digits(report: &mut Vec<u8>, byte: u8) -> Result<(), OutOfMemory>
    ensures { OnOk result (report.new.items ≡ report.old.items ++ two_digits byte) }
{
    report.extend_from_slice(&two_digits(byte))
}

/// Prints a word as four hexadecimal digits.
pub fn put_word(report: &mut Vec<u8>, word: u16) -> Result<(), OutOfMemory>
    ensures { OnOk result (report.new.items ≡ report.old.items ++ four_digits word) }
{
    report.extend_from_slice(&four_digits(word))
}

/// Prints a byte of a text.
fn put_shown(report: &mut Vec<u8>, byte: u8) -> Result<(), OutOfMemory>
    ensures { OnOk result (report.new.items ≡ report.old.items ++ shown_byte byte) }
{
    if 0x20 <= byte && byte <= 0x7e && byte != b'\\' {
        return report.extend_from_slice(&[byte]);
    }
    report.extend_from_slice(b"\\x")?;
    put_two_digits(report, byte)
}

/// Prints a text: each printable character of ASCII but the backslash as itself, and every other byte as `\x` and two
/// hexadecimal digits.
pub fn put_text(report: &mut Vec<u8>, text: &[u8]) -> Result<(), OutOfMemory>
    ensures { OnOk result (report.new.items ≡ report.old.items ++ shown_text text.now) }
{
    for byte in text {
        put_shown(report, *byte)?;
    }
    Ok(())
}
