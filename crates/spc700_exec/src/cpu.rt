//! The registers.

/// The registers of the SPC700, and whether it has halted (Anomie's SPC700 Doc, the registers).
#[derive(Clone, Copy, Debug, PartialEq, Eq)]
pub struct Cpu {
    /// The accumulator A.
    pub a: u8,
    /// The index X.
    pub x: u8,
    /// The index Y.
    pub y: u8,
    /// The stack pointer: the stack is page 1.
    pub sp: u8,
    /// The program counter.
    pub pc: u16,
    /// The status: N 80h, V 40h, P 20h, B 10h, H 08h, I 04h, Z 02h, C 01h.
    pub psw: u8,
    /// Whether SLEEP or STOP halted it, for good.
    pub halted: bool,
}
