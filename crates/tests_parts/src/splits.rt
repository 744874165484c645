use text_form::{first_part, place_of};

#[test]
fn parts_before_and_after_a_character(rt: HostRuntime) {
    let rows: [(&[u8], Option<usize>, &[u8], Option<&[u8]>); 4] = [
        (b"", None, b"", None),
        (b"one", None, b"one", None),
        (b",", Some(0), b"", Some(b"")),
        (b"one,two,", Some(3), b"one", Some(b"two,")),
    ];
    for (text, place, part, after) in rows {
        assert!(rt; place_of(b',', text) == place);
        assert!(rt; first_part(b',', text) == (part, after));
    }
}
