// What a write of the processor is beside a byte of memory.
ghost use Rattle.std.specs.Prelude.{◌≡◌, ◌≤◌, true};
ghost use Rattle.lock_step.specs.LockStep.{writes_register, writes_port};

/// Whether a write is one of a register of the chip: of F3h while the DSP address is below 80h.
pub fn writes_register(dsp_address: u8, at: u16) -> bool
    ensures { result ≡ writes_register dsp_address at }
{
    at == 0xF3 && dsp_address < 0x80
}

/// Whether a write is one of an output port.
pub fn writes_port(at: u16) -> bool
    ensures value { result ≡ writes_port at }
    ensures first { result ≡ true → 0xF4 ≤ at }
{
    (0xF4..=0xF7).contains(&at)
}
