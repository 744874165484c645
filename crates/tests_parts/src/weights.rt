//! The table of straight lines, what is no table, and products by factors of 16 bits.

use gauss_table::{GaussTable, TableRefusal, factor_of, product_by_factor};
use std::test::Fail;

#[test]
fn straight_lines_weigh_the_middle_two(rt: HostRuntime) -> Result<(), Fail> {
    let table = GaussTable::straight(rt.alloc())?;
    for (i, samples, want) in [
        (0, (4096, 4096, 4096, 4096), 4096),
        (0, (0, 2048, 0, 0), 2044),
        (0, (0, 0, 2048, 0), 4),
        (255, (0, 2048, 0, 0), 4),
        (255, (0, 0, 2048, 0), 2044),
        (128, (2048, 0, 0, 2048), 0),
    ] {
        let (x0, x1, x2, x3) = samples;
        assert!(rt; table.mix(i, x0, x1, x2, x3) == want, "at {i}");
    }
    Ok(())
}

// Four of the weights aren't 0: in 2,048ths, entry 3 is 256, 252 is 2048, 259 is 512 and 508 is 1024.
#[test]
fn each_of_four_samples_has_its_own_weight(rt: HostRuntime) -> Result<(), Fail> {
    let mut bytes = [0u8; 1024];
    bytes[7] = 0x01;
    bytes[505] = 0x08;
    bytes[519] = 0x02;
    bytes[1017] = 0x04;
    let table = GaussTable::read(rt.alloc(), &bytes)?;
    for (i, samples, want) in [
        (3, (4096, 0, 0, 0), 4096),
        (3, (0, 4096, 0, 0), 2048),
        (3, (0, 0, 4096, 0), 1024),
        (3, (0, 0, 0, 4096), 512),
        (252, (4096, 0, 0, 0), 512),
        (252, (0, 4096, 0, 0), 1024),
        (252, (0, 0, 4096, 0), 2048),
        (252, (0, 0, 0, 4096), 4096),
    ] {
        let (x0, x1, x2, x3) = samples;
        assert!(rt; table.mix(i, x0, x1, x2, x3) == want, "at {i}");
    }
    Ok(())
}

#[test]
fn a_table_has_1024_bytes(rt: HostRuntime) -> Result<(), Fail> {
    for length in [1023, 1025] {
        let bytes = vec![in rt.alloc(); 0x80u8; length]?;
        let refused = GaussTable::read(rt.alloc(), &bytes).err();
        assert!(rt; refused == Some(TableRefusal::Length(length)));
    }
    // each weight is 8001h, -32,767
    let mut bytes = vec![in rt.alloc(); 0x80u8; 1024]?;
    for low in bytes.iter_mut().step_by(2) {
        *low = 0x01;
    }
    let table = GaussTable::read(rt.alloc(), &bytes)?;
    assert!(rt; table.mix(0, 0, 0, 0, 2048) == -32768);
    Ok(())
}

#[test]
fn a_weight_below_1_has_a_factor_of_16_bits(rt: HostRuntime) {
    for (weight, sample, want) in [
        (0, -1, 0),
        (1, -1, -1),
        (1, 2047, 0),
        (1023, -32768, -16368),
        (1024, -3, -2),
        (1024, 32767, 16383),
        (2047, 32767, 32751),
        (2047, -32768, -32752),
    ] {
        let product = product_by_factor(factor_of(weight), sample);
        assert!(rt; product == want, "{sample} under {weight}");
    }
}
