// Numbers and texts of reports.
use report_text::{
    FixedBuffer, put_count, put_named, put_number, put_signed, put_text, put_two_digits, put_word,
};
use std::test::Fail;

#[test]
fn numbers_are_printed(rt: HostRuntime) -> Result<(), Fail> {
    let mut report = Vec::new(rt.alloc());
    put_number(&mut report, 320000)?;
    put_named(&mut report, b" worst ", 4095)?;
    put_signed(&mut report, b" left ", -17)?;
    assert!(rt; report.as_slice() == b"320000 worst 4095 left -17".as_slice());
    Ok(())
}

#[test]
fn digits_and_texts_are_printed(rt: HostRuntime) -> Result<(), Fail> {
    let mut report = Vec::new(rt.alloc());
    put_two_digits(&mut report, 0x0c)?;
    put_word(&mut report, 0x04ef)?;
    put_text(&mut report, b"a\\\x07~")?;
    assert!(rt; report.as_slice() == b"0c04efa\\x5c\\x07~".as_slice());
    Ok(())
}

#[test]
fn bytes_that_are_not_printable_are_shown_as_digits(rt: HostRuntime) -> Result<(), Fail> {
    let mut report = Vec::new(rt.alloc());
    put_text(&mut report, b"\x1f \x7e\x7f\x80\xff")?;
    assert!(rt; report.as_slice() == b"\\x1f ~\\x7f\\x80\\xff".as_slice());
    Ok(())
}

#[test]
fn a_buffer_takes_bytes_until_it_is_full(rt: HostRuntime) -> Result<(), Fail> {
    let mut buffer = FixedBuffer::new(rt.alloc())?;
    buffer.append(b"sam");
    put_count(&mut buffer, b"ples ", 18446744073709551615);
    assert!(rt; buffer.as_slice() == b"samples 18446744073709551615".as_slice());
    assert!(rt; buffer.has_room(131044) && !buffer.has_room(131045));
    buffer.clear();
    assert!(rt; buffer.as_slice().is_empty());
    Ok(())
}
