// The ports, the ROM and the timers together.
ghost use Rattle.std.specs.Prelude.{◌≡◌, ◌<◌, ◌+◌, ◌^◌, is_some};
ghost use Rattle.ports_timers.specs.Limits.{clock_limit};
ghost use Rattle.ports_timers.specs.Io.{is_enabled, first_timer, first_io, answers_read, read_answer, after_read, latches_after_control, timer_after_control, after_control_write, after_write, after_ticks_of};

use crate::Timer;
use num_fix::has_bit;

/// The bytes of the ROM.
pub const ROM_SIZE: usize = 64;

/// The state of the ports, the ROM and the timers: the control byte F1h, the DSP address, the latches that the processor
/// reads and those that it writes, the timers 0 to 2, and the 64 bytes that show at FFC0h to FFFFh while control has bit 7.
#[derive(Clone, Copy, Debug, PartialEq, Eq)]
pub struct Io {
    pub control: u8,
    pub dsp_address: u8,
    pub input: [u8; 4],
    pub output: [u8; 4],
    pub timer0: Timer,
    pub timer1: Timer,
    pub timer2: Timer,
    pub rom: [u8; ROM_SIZE],
}

/// A timer as opening leaves it.
fn first_timer(target: u8, output: u8) -> Timer
    ensures { result ≡ first_timer target output }
{
    Timer {
        target,
        inner: 0,
        output: output % 16,
    }
}

/// A timer after a write of the control.
fn timer_after_control(old: u8, new: u8, index: u8, timer: Timer) -> Timer
    requires { index < 3 }
    ensures { result ≡ timer_after_control old new index timer }
{
    if !has_bit(old, index) && has_bit(new, index) {
        Timer {
            inner: 0,
            output: 0,
            ..timer
        }
    } else {
        timer
    }
}

/// The input latches after a write of the control.
fn latches_after_control(value: u8, input: [u8; 4]) -> [u8; 4]
    ensures { result ≡ latches_after_control value input }
{
    let mut latches = input;
    if has_bit(value, 4) {
        latches[0] = 0;
        latches[1] = 0;
    }
    if has_bit(value, 5) {
        latches[2] = 0;
        latches[3] = 0;
    }
    latches
}

impl Io {
    /// What the cells F0h to FFh of a memory open, over a ROM. Opening is no write: it clears nothing.
    pub fn from_cells(cells: [u8; 16], rom: [u8; ROM_SIZE]) -> Io
        ensures { result ≡ first_io cells rom }
    {
        Io {
            control: cells[0x1],
            dsp_address: cells[0x2],
            input: [cells[0x4], cells[0x5], cells[0x6], cells[0x7]],
            output: [0; 4],
            timer0: first_timer(cells[0xA], cells[0xD]),
            timer1: first_timer(cells[0xB], cells[0xE]),
            timer2: first_timer(cells[0xC], cells[0xF]),
            rom,
        }
    }

    /// Answers a read, or gives None where memory or, at F3h, the S-DSP answers.
    /// Reading an output counter sets it to 0.
    pub fn read(&mut self, addr: u16) -> Option<u8>
        ensures answers { is_some result ≡ answers_read self.old addr }
        ensures answer { result ≡ read_answer self.old addr }
        ensures after { self.new ≡ after_read self.old addr }
    {
        match addr {
            0xF0 | 0xF1 | 0xFA..=0xFC => Some(0),
            0xF2 => Some(self.dsp_address),
            0xF4..=0xF7 => Some(self.input[usize::from(addr) - 0xF4]),
            0xFD => Some(std::mem::replace(&mut self.timer0.output, 0)),
            0xFE => Some(std::mem::replace(&mut self.timer1.output, 0)),
            0xFF => Some(std::mem::replace(&mut self.timer2.output, 0)),
            0xFFC0.. if has_bit(self.control, 7) => Some(self.rom[usize::from(addr) - 0xFFC0]),
            _ => None,
        }
    }

    /// Writes the control byte.
    fn write_control(&mut self, value: u8)
        ensures { self.new ≡ after_control_write self.old value }
    {
        let old = self.control;
        self.control = value;
        self.input = latches_after_control(value, self.input);
        self.timer0 = timer_after_control(old, value, 0, self.timer0);
        self.timer1 = timer_after_control(old, value, 1, self.timer1);
        self.timer2 = timer_after_control(old, value, 2, self.timer2);
    }

    /// Takes a write. Outside F0h to FFh, and at those of them that hold nothing, it has no effect here.
    pub fn write(&mut self, addr: u16, value: u8)
        ensures { self.new ≡ after_write self.old addr value }
    {
        match addr {
            0xF1 => self.write_control(value),
            0xF2 => self.dsp_address = value,
            0xF4..=0xF7 => self.output[usize::from(addr) - 0xF4] = value,
            0xFA => self.timer0.target = value,
            0xFB => self.timer1.target = value,
            0xFC => self.timer2.target = value,
            _ => {}
        }
    }

    /// Does the ticks of any number of cycles from a moment of the clock on.
    pub(crate) fn tick(&mut self, from_clock: u64, cycles: u64)
        requires { from_clock + cycles < 2 ^ 64 }
        ensures { self.new ≡ after_ticks_of self.old from_clock cycles }
    {
        // Each tick falls on a multiple of 16.
        if from_clock % 16 + cycles < 16 {
            return;
        }
        let control = self.control;
        self.timer0
            .pass(has_bit(control, 0), 128, from_clock, cycles);
        self.timer1
            .pass(has_bit(control, 1), 128, from_clock, cycles);
        self.timer2
            .pass(has_bit(control, 2), 16, from_clock, cycles);
    }

    /// Does the ticks as the clock goes on by some cycles from `from_clock`, which is below 2 to the 40.
    pub fn ticks(&mut self, from_clock: u64, cycles: u8)
        requires { from_clock < clock_limit }
        ensures { self.new ≡ after_ticks_of self.old from_clock cycles }
    {
        self.tick(from_clock, u64::from(cycles));
    }

    /// The address of the S-DSP's register that F3h reaches.
    pub fn dsp_address(&self) -> u8
        ensures { result ≡ self.now.dsp_address }
    {
        self.dsp_address
    }
}
