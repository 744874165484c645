use num_fix::{
    Frame, add_clamped, clamp16, clear_bit0, half, has_bit, sar, scaled, sign4, sign8, wrap16,
};

#[test]
fn results_at_the_ends_of_their_ranges(rt: HostRuntime) {
    let limited = [clamp16(32768), clamp16(-32769), add_clamped(32767, 1)];
    assert!(rt; limited == [32767, -32768, 32767]);
    let cut = [
        wrap16(65534),
        wrap16(-32769),
        clear_bit0(-1),
        clear_bit0(32767),
        half(-1),
    ];
    assert!(rt; cut == [-2, 32767, -2, 32766, -1]);
    let shifted = [sar(-1, 31), sar(-5, 1), scaled(-32768, -32768, 0)];
    assert!(rt; shifted == [-1, -3, 1073741824]);
    let signed = [sign4(0xF8), sign4(0x87), sign8(0x80), sign8(0x7F)];
    assert!(rt; signed == [-8, 7, -128, 127]);
}

#[test]
fn bits_of_a_byte_and_silence(rt: HostRuntime) {
    assert!(rt; (has_bit(0x80, 7), has_bit(0x80, 0)) == (true, false));
    assert!(rt; Frame::default() == Frame { left: 0, right: 0 });
}
