// What the trace records.

/// A write of a register of the S-DSP, a write of a port, or a voice's part of a sample.
/// `sample` is the number of samples made before, or of a voice the sample's own number, from 0 on.
#[derive(Clone, Copy, Debug, PartialEq, Eq)]
pub enum Record {
    /// A write of the register `addr`, below 80h.
    Reg {
        sample: u32,
        addr: u8,
        value: u8,
    },
    /// A write of one of the output ports 0 to 3.
    Port {
        sample: u32,
        port: u8,
        value: u8,
    },
    /// A step of one of the voices 0 to 7: the envelope level, 0 to 7FFh, and the output that it made,
    /// the address of the block after the step, and whether the voice was keyed and whether it came to an end in it.
    Voice {
        sample: u32,
        voice: u8,
        level: u16,
        out: i16,
        block: u16,
        keyed: bool,
        ended: bool,
    },
}
