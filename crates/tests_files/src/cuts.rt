use cut_text::{TextRefusal, read_cuts};
use std::alloc::Global;
use std::test::Fail;

/// How many cuts a text lists, and how many frames they have.
fn listed(alloc: Global, text: &[u8]) -> Result<(usize, u32), TextRefusal> {
    let list = read_cuts(alloc, text)?;
    Ok((list.as_slice().len(), list.samples()))
}

#[test]
fn lists_and_first_wrong_lines(rt: HostRuntime) {
    for (text, is) in [
        ("", Ok((0, 0))),
        ("6 2\n0 8\n", Ok((2, 10))),
        ("6 2\r\n007 8\r", Ok((2, 10))),
        ("115199999 1", Ok((1, 1))),
        ("5", Err(TextRefusal::Wrong(1))),
        ("115200000 1", Err(TextRefusal::Wrong(1))),
        ("1 1\n\n2 2\n", Err(TextRefusal::Wrong(2))),
        ("1  1", Err(TextRefusal::Wrong(1))),
        ("1 1 ", Err(TextRefusal::Wrong(1))),
        ("1\t1", Err(TextRefusal::Wrong(1))),
        ("1 1\r\r\n", Err(TextRefusal::Wrong(1))),
        ("\n", Err(TextRefusal::Wrong(1))),
        ("115200000 0", Ok((1, 0))),
        ("1 1 1", Err(TextRefusal::Wrong(1))),
        ("0 1\n1 0000000001", Err(TextRefusal::Wrong(2))),
        ("1 115199999\n0 1\n0 1", Err(TextRefusal::Wrong(3))),
    ] {
        assert!(rt; listed(rt.alloc(), text.as_bytes()) == is);
    }
}

#[test]
fn a_thousand_lines_and_one_more(rt: HostRuntime) -> Result<(), Fail> {
    let mut text = Vec::new(rt.alloc());
    for _ in 0..1000 {
        text.extend_from_slice(b"0 1\n")?;
    }
    assert!(rt; listed(rt.alloc(), &text) == Ok((1000, 1000)));
    text.extend_from_slice(b"0 0")?;
    assert!(rt; listed(rt.alloc(), &text) == Err(TextRefusal::Wrong(1001)));
    Ok(())
}
