//! The voice and its step.

ghost use Rattle.std.specs.Prelude.{◌≡◌, ◌+◌, ◌*◌, ◌/◌, ◌%◌, ◌<◌, ◌≤◌, ◌++◌, drop, length};
ghost use Rattle.voice_unit.specs.Directory.{start_word, loop_word};
ghost use Rattle.voice_unit.specs.Voice.{silent_voice, step_pitch, step_header, after_delay, interpolation, source_sample, output, needs_group, after_envelope, is_ended, after_decoding, at_next_group, after_reading, after_pitch, voice_step, voice_answer};

use crate::directory::{loop_word, start_word};
use crate::interface::{VoiceIn, VoiceOut, VoiceRegs, is_keyed, is_silencing};
use crate::level::{at_level, high_byte, pitch_of};
use aram_core::Aram;
use brr_decode::{block_after, decode_group, has_end};
use envelope::Envelope;
use gauss_table::GaussTable;
use num_fix::{clear_bit0, wrap16};
use rate_clock::RateClock;
use std::marker::Model;

/// A voice of the S-DSP (Anomie's S-DSP Doc, "DSP Voices"). Contracts see its last 12 kept samples as
/// a list, oldest first.
#[derive(Clone, Copy, Debug)]
pub struct Voice {
    samples: [i16; 12],
    position: u16,
    block: u16,
    offset: u8,
    delay: u8,
    envelope: Envelope,
}

impl Model for Voice {
    ghost use Rattle.voice_unit.specs.Voice.{VoiceState};
    ghost use Rattle.voice_unit.specs.Inside.{state_of, IsVoice, inside_of};

    ghost Value = { VoiceState };

    ghost view = { state_of };

    ghost invariant = { IsVoice };

    ghost inverse = { inside_of };
}

/// How many samples a voice waits after its key on.
const KEY_ON_DELAY: u8 = 5;

/// The offset of the last group of a block.
const LAST_GROUP: u8 = 7;

/// The samples without the four oldest, and four new ones after them.
fn samples_with_group(samples: &[i16; 12], group: [i16; 4]) -> [i16; 12]
    ensures { result ≡ drop 4 samples.now ++ group }
{
    let [_, _, _, _, a, b, c, d, e, f, g, h] = *samples;
    let [w, x, y, z] = group;
    [a, b, c, d, e, f, g, h, w, x, y, z]
}

impl Voice {
    /// A voice that was never keyed: silent, with zeros as its samples.
    pub fn new() -> Self
        ensures { result ≡ silent_voice }
    {
        Voice {
            samples: [0; 12],
            position: 0,
            block: 0,
            offset: 1,
            delay: 0,
            envelope: Envelope::released(),
        }
    }

    /// The address of the block that the voice plays.
    pub fn block(&self) -> u16
        ensures { result ≡ self.now.block }
    {
        self.block
    }

    /// What is left of the key-on delay, 5 to 0 samples.
    pub fn delay(&self) -> u8
        ensures value { result ≡ self.now.delay }
        ensures bound { result ≤ 5 }
    {
        self.delay
    }

    /// Its last twelve kept samples, oldest first.
    pub fn samples(&self) -> [i16; 12]
        ensures { result ≡ self.now.samples }
    {
        self.samples
    }

    /// The position that the voice plays among its samples, in 4096ths of one: at most 7FFFh.
    pub fn position(&self) -> u16
        ensures value { result ≡ self.now.position }
        ensures within { result < 0x8000 }
    {
        self.position
    }

    /// The offset in its block of the group that the voice reads next: 1, 3, 5 or 7.
    pub fn offset(&self) -> u8
        ensures value { result ≡ self.now.offset }
        ensures within { result < 8 }
        ensures odd { result % 2 ≡ 1 }
    {
        self.offset
    }

    /// The envelope.
    pub fn envelope(&self) -> Envelope
        ensures { result ≡ self.now.envelope }
    {
        self.envelope
    }

    /// Goes on to a position among twelve kept samples, with the group at an offset of a block as the one to read next.
    pub fn go_to(&mut self, samples: &[i16], position: u16, block: u16, offset: u8)
        requires twelve { length samples.now ≡ 12 }
        requires position { position < 0x8000 }
        requires within { offset < 8 }
        requires odd { offset % 2 ≡ 1 }
        ensures { self.new ≡ record self.old { samples = samples.now; position = position; block = block; offset = offset } }
    {
        self.samples.copy_from_slice(samples);
        self.position = position;
        self.block = block;
        self.offset = offset;
    }

    /// Takes an envelope in place of its own.
    pub fn take_envelope(&mut self, envelope: Envelope)
        ensures { self.new ≡ record self.old { envelope = envelope } }
    {
        self.envelope = envelope;
    }

    /// Whether the position has come to the end of the samples that it may play, so that a group is to be read.
    fn needs_group(&self) -> bool
        ensures { result ≡ needs_group self.now }
    {
        self.position >= 0x4000
    }

    /// The pitch at which a step moves on.
    #[tactic(auto, unfolding(crate::specs::Voice::step_pitch))]
    fn step_pitch(&self, regs: &VoiceRegs, input: &VoiceIn) -> u16
        requires { regs.now.pitch < 0x4000 }
        ensures value { result ≡ step_pitch self.now regs.now input.now }
        ensures bound { result < 0x8000 }
    {
        if self.delay == 0 {
            pitch_of(regs, input)
        } else {
            0
        }
    }

    /// The header that a step sees.
    #[tactic(auto, unfolding(crate::specs::Voice::step_header))]
    fn step_header(&self, memory: &Aram) -> u8
        ensures { result ≡ step_header self.now memory.now }
    {
        match self.delay {
            KEY_ON_DELAY => 0,
            _ => memory.get(self.block),
        }
    }

    /// One step of the key-on delay.
    #[tactic(auto, unfolding(crate::specs::Voice::after_delay))]
    fn wait(&mut self, regs: &VoiceRegs, input: &VoiceIn, memory: &Aram)
        ensures { self.new ≡ after_delay self.old (start_word input.now.dir regs.now.srcn memory.now) }
    {
        if self.delay == 0 {
            return;
        }
        if self.delay == KEY_ON_DELAY {
            self.block = start_word(input.dir, regs.srcn, memory);
            self.offset = 1;
        }
        self.delay -= 1;
        self.position = if self.delay % 4 == 0 { 0 } else { 0x4000 };
        self.envelope.reset_for_key_on();
    }

    /// The interpolation of the four samples at the position.
    #[tactic(auto, unfolding(crate::specs::Voice::interpolation))]
    fn interpolation(&self, table: &GaussTable) -> i16
        ensures { result ≡ interpolation table.now self.now.samples self.now.position }
    {
        let m = usize::from(self.position / 0x1000);
        let i = (self.position / 0x10 % 0x100) as u8;
        let samples = &self.samples;
        table.mix(
            i,
            samples[m],
            samples[m + 1],
            samples[m + 2],
            samples[m + 3],
        )
    }

    /// What the voice plays before its level.
    #[tactic(auto, unfolding(crate::specs::Voice::source_sample))]
    fn source_sample(&self, input: &VoiceIn, table: &GaussTable) -> i16
        requires { input.now.noise < 0x8000 }
        ensures { result ≡ source_sample self.now input.now table.now }
    {
        if input.noisy {
            wrap16(2 * i32::from(input.noise))
        } else {
            self.interpolation(table)
        }
    }

    /// The level of the envelope.
    pub fn level(&self) -> u16
        ensures value { result ≡ self.now.envelope.level }
        ensures bound { result ≤ 0x7ff }
    {
        self.envelope.level()
    }

    /// The output at the level. At level 0 it is 0, whatever the samples are.
    #[tactic(auto, unfolding(crate::specs::Voice::output))]
    fn output(&self, input: &VoiceIn, table: &GaussTable) -> i16
        requires { input.now.noise < 0x8000 }
        ensures { result ≡ output self.now input.now table.now }
    {
        let level = self.level();
        if level == 0 {
            return 0;
        }
        clear_bit0(at_level(self.source_sample(input, table), level))
    }

    /// Silencing, keys, and the step of the envelope where there is no delay.
    #[tactic(auto, unfolding(crate::specs::Voice::after_envelope, crate::specs::Voice::after_silencing, crate::specs::Voice::after_keys))]
    fn step_envelope(&mut self, regs: &VoiceRegs, input: &VoiceIn, header: u8, clock: &RateClock)
        ensures { self.new ≡ after_envelope self.old regs.now input.now header clock.now }
    {
        if is_silencing(input.reset, header) {
            self.envelope.silence();
        }
        if input.poll && input.koff {
            self.envelope.release();
        }
        if input.poll && input.kon {
            self.envelope.key();
            self.delay = KEY_ON_DELAY;
        }
        if self.delay == 0 {
            self.envelope.step(regs.adsr1, regs.adsr2, regs.gain, clock);
        }
    }

    /// Decodes the next group.
    #[tactic(auto, unfolding(crate::specs::Voice::after_decoding))]
    fn decode(&mut self, memory: &Aram, header: u8)
        ensures { self.new ≡ after_decoding self.old memory.now header }
    {
        let at = self.block.wrapping_add(u16::from(self.offset));
        let high = memory.get(at);
        let low = memory.get(at.wrapping_add(1));
        let group = decode_group(header, high, low, self.samples[11], self.samples[10]);
        self.samples = samples_with_group(&self.samples, group);
    }

    /// Goes on to the next group, in this block or the next.
    #[tactic(auto, unfolding(crate::specs::Voice::at_next_group))]
    fn go_to_next_group(&mut self, header: u8, dir: u8, srcn: u8, memory: &Aram)
        ensures { self.new ≡ at_next_group self.old header (loop_word dir srcn memory.now) }
    {
        if self.offset != LAST_GROUP {
            self.offset += 2;
            return;
        }
        self.offset = 1;
        if has_end(header) {
            self.block = loop_word(dir, srcn, memory);
        } else {
            self.block = block_after(self.block);
        }
    }

    /// Reads the next group if the position has reached it, and returns whether that ends a block that has its end bit.
    /// Inlined, since most samples of a batch read none.
    #[inline(always)]
    #[tactic(auto, unfolding(crate::specs::Voice::after_reading))]
    fn read_on(&mut self, header: u8, regs: &VoiceRegs, input: &VoiceIn, memory: &Aram) -> bool
        ensures voice { self.new ≡ after_reading self.old memory.now header (loop_word input.now.dir regs.now.srcn memory.now) }
        ensures ended { result ≡ is_ended self.old header }
    {
        if !self.needs_group() {
            return false;
        }
        let ended = self.offset == LAST_GROUP && has_end(header);
        self.decode(memory, header);
        self.go_to_next_group(header, input.dir, regs.srcn, memory);
        ended
    }

    /// Moves on by a pitch.
    #[tactic(auto, unfolding(crate::specs::Voice::after_pitch))]
    fn move_on(&mut self, pitch: u16)
        requires { pitch < 0x8000 }
        ensures { self.new ≡ after_pitch self.old pitch }
    {
        self.position = (self.position % 0x4000 + pitch).min(0x7fff);
    }

    /// One step: the next voice, and what it gives. Inlined, so that what it reads and gives need not stand in memory.
    #[inline(always)]
    #[tactic(auto, unfolding(crate::specs::Voice::voice_step, crate::specs::Voice::voice_answer, crate::specs::Voice::after_envelope))]
    pub fn step(
        &mut self,
        regs: &VoiceRegs,
        input: &VoiceIn,
        memory: &Aram,
        table: &GaussTable,
        clock: &RateClock,
    ) -> VoiceOut
        requires pitch { regs.now.pitch < 0x4000 }
        requires noise { input.now.noise < 0x8000 }
        ensures voice { self.new ≡ voice_step self.old regs.now input.now memory.now clock.now }
        ensures answer { result ≡ voice_answer self.old regs.now input.now memory.now table.now clock.now }
    {
        let header = self.step_header(memory);
        let pitch = self.step_pitch(regs, input);
        self.wait(regs, input, memory);
        let out = self.output(input, table);
        let level = self.level();
        self.step_envelope(regs, input, header, clock);
        let ended = self.read_on(header, regs, input, memory);
        self.move_on(pitch);
        VoiceOut {
            out,
            level,
            envx: (level / 0x10) as u8,
            outx: high_byte(out),
            block: self.block,
            ended,
            keyed: is_keyed(input),
        }
    }
}
