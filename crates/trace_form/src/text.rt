// The line of a record in a trace.
ghost use Rattle.std.specs.Prelude.{◌≡◌, ◌+◌, ◌≤◌, ◌++◌, [], length};
ghost use Rattle.text_form.specs.Digits.{two_digits, four_digits};
ghost use Rattle.trace_form.specs.Line.{letter_or_dash, line_of};

use crate::Record;
use itoa::{Buffer, Integer};
use std::marker::Model;
use text_form::{four_digits, two_digits};

/// The most bytes of a line, with its line feed.
pub const LINE_SIZE: usize = 48;

/// A line of a trace, with its line feed.
#[derive(Drop)]
pub struct TraceLine {
    text: [u8; LINE_SIZE],
    len: usize,
}

impl Model for TraceLine {
    ghost use Rattle.std.specs.Prelude.{◌≤◌, List, ℕ, take};
    ghost use Rattle.trace_form.specs.declared.text.TheConstants.{LINE_SIZE};

    ghost Value = { List ℕ };

    ghost view = { λ line. take line.len line.text };

    ghost invariant = { λ line. line.len ≤ LINE_SIZE };
}

impl TraceLine {
    /// A line without text.
    fn new() -> Self
        ensures { result ≡ [] }
    {
        TraceLine {
            text: [0; LINE_SIZE],
            len: 0,
        }
    }

    /// The line's bytes.
    pub fn bytes(&self) -> &[u8]
        ensures bytes { result.now ≡ self.now }
        ensures at_most { length result.now ≤ LINE_SIZE }
    {
        &self.text[..self.len]
    }

    /// Adds text at the end.
    fn append(&mut self, piece: &[u8])
        requires { length self.old + length piece.now ≤ LINE_SIZE }
        ensures text { self.new ≡ self.old ++ piece.now }
        ensures len { length self.new ≡ length self.old + length piece.now }
    {
        let end = self.len + piece.len();
        self.text[self.len..end].copy_from_slice(piece);
        self.len = end;
    }

    /// Adds a number in decimals.
    fn append_decimal<I: Integer>(&mut self, number: I)
        requires { length self.old + I.MAX_STR_LEN ≤ LINE_SIZE }
        ensures text { self.new ≡ self.old ++ I.text number }
        ensures len { length self.new ≤ length self.old + I.MAX_STR_LEN }
    {
        self.append(Buffer::new().format(number).as_bytes());
    }

    /// Adds a byte as two hexadecimal digits.
    fn append_byte(&mut self, byte: u8)
        requires { length self.old + 2 ≤ LINE_SIZE }
        ensures text { self.new ≡ self.old ++ two_digits byte }
        ensures len { length self.new ≡ length self.old + 2 }
    {
        self.append(&two_digits(byte));
    }

    /// Adds a word as four hexadecimal digits.
    fn append_word(&mut self, word: u16)
        requires { length self.old + 4 ≤ LINE_SIZE }
        ensures text { self.new ≡ self.old ++ four_digits word }
        ensures len { length self.new ≡ length self.old + 4 }
    {
        self.append(&four_digits(word));
    }

    /// Adds a letter where something is so, and else a dash.
    fn append_mark(&mut self, is_so: bool, letter: &[u8])
        requires room { length self.old + 1 ≤ LINE_SIZE }
        requires letter { length letter.now ≡ 1 }
        ensures text { self.new ≡ self.old ++ letter_or_dash is_so letter.now }
        ensures len { length self.new ≡ length self.old + 1 }
    {
        self.append(if is_so { letter } else { b"-" });
    }
}

/// The line of a write of a register.
#[tactic(auto, unfolding(crate::specs::Line::line_of))]
fn register_line(sample: u32, addr: u8, value: u8) -> TraceLine
    ensures { result ≡ line_of (Record.Reg sample addr value) }
{
    let mut line = TraceLine::new();
    line.append(b"R ");
    line.append_decimal(sample);
    line.append(b" ");
    line.append_byte(addr);
    line.append(b" ");
    line.append_byte(value);
    line.append(b"\n");
    line
}

/// The line of a write of a port.
#[tactic(auto, unfolding(crate::specs::Line::line_of))]
fn port_line(sample: u32, port: u8, value: u8) -> TraceLine
    ensures { result ≡ line_of (Record.Port sample port value) }
{
    let mut line = TraceLine::new();
    line.append(b"P ");
    line.append_decimal(sample);
    line.append(b" ");
    line.append_decimal(port);
    line.append(b" ");
    line.append_byte(value);
    line.append(b"\n");
    line
}

/// The text of a trace line: for each kind of record a letter and its numbers, with a blank between two of them.
#[tactic(auto, unfolding(crate::specs::Line::line_of))]
pub fn line(item: &Record) -> TraceLine
    ensures { result ≡ line_of item.now }
{
    match *item {
        Record::Reg {
            sample,
            addr,
            value,
        } => register_line(sample, addr, value),
        Record::Port {
            sample,
            port,
            value,
        } => port_line(sample, port, value),
        Record::Voice {
            sample,
            voice,
            level,
            out,
            block,
            keyed,
            ended,
        } => {
            let mut line = TraceLine::new();
            line.append(b"V ");
            line.append_decimal(sample);
            line.append(b" ");
            line.append_decimal(voice);
            line.append(b" ");
            line.append_decimal(level);
            line.append(b" ");
            line.append_decimal(out);
            line.append(b" ");
            line.append_word(block);
            line.append(b" ");
            line.append_mark(keyed, b"k");
            line.append_mark(ended, b"l");
            line.append(b"\n");
            line
        }
    }
}
