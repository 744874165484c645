use aram_core::{Aram, PageSet, page_of};
use std::alloc::Global;
use std::test::Fail;
use test_support::has_exactly;

/// A memory whose bytes are all one value.
fn filled(alloc: Global, value: u8) -> Result<Aram, Fail> {
    let image = vec![in alloc; value; 65536]?;
    Ok(Aram::from_image(alloc, &image)?)
}

#[test]
fn a_word_wraps_from_the_last_address_to_the_first(rt: HostRuntime) -> Result<(), Fail> {
    let mut memory = filled(rt.alloc(), 0)?;
    memory.put(0xFFFF, 0x34);
    memory.put(0x0000, 0x12);
    assert!(rt; memory.get(0xFFFF) == 0x34);
    assert!(rt; memory.word(0xFFFF) == 0x1234);
    assert!(rt; memory.word(0x0000) == 0x0012);
    Ok(())
}

#[test]
fn a_page_is_put_and_read_alone(rt: HostRuntime) -> Result<(), Fail> {
    let mut memory = filled(rt.alloc(), 0x11)?;
    memory.set_page(0xFF, &[0x22; 256]);
    memory.put(0xFF00, 0x33);
    assert!(rt;
        (
            memory.get(0xFEFF),
            memory.get(0xFF00),
            memory.get(0xFFFF),
            memory.get(0x0000)
        ) == (0x11, 0x33, 0x22, 0x11)
    );
    let page = memory.page(0xFF);
    assert!(rt; (page.len(), page[0], page[255]) == (256, 0x33, 0x22));
    assert!(rt; memory.page(0xFE) == [0x11; 256].as_slice());
    Ok(())
}

#[test]
fn a_memory_takes_over_another(rt: HostRuntime) -> Result<(), Fail> {
    let mut memory = filled(rt.alloc(), 0x11)?;
    memory.copy_from(&filled(rt.alloc(), 0x22)?);
    assert!(rt; (memory.get(0x0000), memory.get(0xFFFF)) == (0x22, 0x22));
    Ok(())
}

#[test]
fn the_page_of_an_address_is_its_high_byte(rt: HostRuntime) {
    assert!(rt; (page_of(0x00FF), page_of(0x0100), page_of(0xFFFF)) == (0x00, 0x01, 0xFF));
}

#[test]
fn sets_of_pages_at_their_ends(rt: HostRuntime) {
    let mut ends = PageSet::empty();
    for page in [0x00, 0x7F, 0x80, 0xFF] {
        ends.add(page);
    }
    assert!(rt; has_exactly(&ends, &[0x00, 0x7F, 0x80, 0xFF]));
    let mut others = PageSet::empty();
    assert!(rt; ends.meets(&others) == false);
    others.add(0x01);
    others.add(0xFE);
    assert!(rt; ends.meets(&others) == false);
    others.add(0xFF);
    assert!(rt; ends.meets(&others) == true);
}

#[test]
fn pages_from_one_on_go_on_at_page_0(rt: HostRuntime) {
    let mut pages = PageSet::pages_from(0xFE, 4);
    assert!(rt; has_exactly(&pages, &[0xFE, 0xFF, 0x00, 0x01]));
    pages.add_all(&PageSet::pages_from(0x7F, 2));
    assert!(rt; has_exactly(&pages, &[0x7F, 0x80, 0xFE, 0xFF, 0x00, 0x01]));
}
