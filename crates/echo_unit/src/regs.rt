// The registers of the echo.

/// The registers that a step of the echo reads (Anomie's S-DSP Doc, "DSP Register Map"). The volumes, EFB and the coefficients of the
/// filter are bytes with a sign: -128 to 127.
#[derive(Clone, Copy)]
pub struct EchoRegs {
    /// ESA: the page of 256 bytes at which the buffer begins.
    pub esa: u8,
    /// EDL: the length of the buffer in units of 2,048 bytes, in the low four bits.
    pub edl: u8,
    /// FLG: bit 6 mutes the output, and bit 5 keeps the echo from writing to memory.
    pub flg: u8,
    /// EFB: how much of the echo goes back into the buffer, in 128ths, signed.
    pub efb: u8,
    /// MVOLL: the main volume of the left side, in 128ths, signed.
    pub mvol_l: u8,
    /// MVOLR: the main volume of the right side, in 128ths, signed.
    pub mvol_r: u8,
    /// EVOLL: the volume of the echo on the left side, in 128ths, signed.
    pub evol_l: u8,
    /// EVOLR: the volume of the echo on the right side, in 128ths, signed.
    pub evol_r: u8,
    /// C0 to C7: the coefficients of the filter, in 64ths, signed. `fir[0]` is that of the oldest of the last eight pairs, `fir[7]` that of the newest.
    pub fir: [u8; 8],
}
