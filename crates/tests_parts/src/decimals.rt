use text_form::{decimal_value, four_digits, is_number, two_digits};

#[test]
fn digits_of_bytes_and_words(rt: HostRuntime) {
    assert!(rt; two_digits(0x0A) == *b"0a");
    assert!(rt; four_digits(0xFF09) == *b"ff09");
}

#[test]
fn numbers_in_decimals(rt: HostRuntime) {
    assert!(rt; decimal_value(b"007") == 7);
    assert!(rt; decimal_value(b"9999999999999999999") == 9999999999999999999);
    for (text, is) in [
        ("", false),
        ("0", true),
        ("123456789", true),
        ("1234567890", false),
        ("1 ", false),
        ("-1", false),
    ] {
        assert!(rt; is_number(9, text.as_bytes()) == is);
    }
}
