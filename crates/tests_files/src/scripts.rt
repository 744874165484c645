// Scripts, and their first wrong lines.
use cut_text::{TextRefusal, read_script};
use std::alloc::Global;
use std::test::Fail;

/// How many lines a script has, and how many frames they play.
fn read(alloc: Global, text: &[u8]) -> Result<(usize, u32), TextRefusal> {
    let lines = read_script(alloc, text)?;
    Ok((lines.len(), lines.samples()))
}

#[test]
fn scripts_and_first_wrong_lines(rt: HostRuntime) {
    for (text, is) in [
        ("", Ok((0, 0))),
        ("play 70\nmark\nseek 60\r\nplay 2\n", Ok((4, 72))),
        // refused, since it ends after an hour, and since all frames are more than an hour
        ("seek 115200000\nplay 1", Ok((2, 0))),
        ("seek 115199999\nplay 1", Ok((2, 1))),
        ("play 1\nseek 0\nplay 115200000", Ok((3, 1))),
        (
            "play 1\nplay 115200000\nseek 0\nplay 115199999",
            Ok((4, 115200000)),
        ),
        ("drop 007\nfree", Ok((2, 0))),
        ("seek 115200001", Err(TextRefusal::Wrong(1))),
        ("free\nmark 1", Err(TextRefusal::Wrong(2))),
        ("play 115200001", Err(TextRefusal::Wrong(1))),
        ("drop 115200001", Err(TextRefusal::Wrong(1))),
        ("seek", Err(TextRefusal::Wrong(1))),
        ("seek  1", Err(TextRefusal::Wrong(1))),
        ("mark ", Err(TextRefusal::Wrong(1))),
        ("mark\r\r\n", Err(TextRefusal::Wrong(1))),
        ("free\n\nfree", Err(TextRefusal::Wrong(2))),
        ("Play 1", Err(TextRefusal::Wrong(1))),
        ("play 0000000001", Err(TextRefusal::Wrong(1))),
    ] {
        assert!(rt; read(rt.alloc(), text.as_bytes()) == is, "{text}");
    }
}

#[test]
fn a_hundred_thousand_lines_and_one_more(rt: HostRuntime) -> Result<(), Fail> {
    let mut text = Vec::new(rt.alloc());
    for _ in 0..100_000 {
        text.extend_from_slice(b"play 1\n")?;
    }
    assert!(rt; read(rt.alloc(), &text) == Ok((100_000, 100_000)));
    text.extend_from_slice(b"free")?;
    assert!(rt; read(rt.alloc(), &text) == Err(TextRefusal::Wrong(100_001)));
    Ok(())
}
