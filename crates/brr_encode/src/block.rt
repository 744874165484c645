// The bytes of a block.
ghost use Rattle.std.specs.Prelude.{◌≡◌, ◌+◌, ◌*◌, ◌%◌, ◌^◌, ◌<◌, ◌≤◌, ◌∷◌, ◌++◌, length, pos, IfOk};
ghost use Rattle.brr_encode.specs.Encoding.{digit_bits, digit_bytes};
ghost use Rattle.brr_encode.specs.Greedy.{greedy_digits, nearest_digit};
ghost use Rattle.brr_encode.specs.Report.{max_squares};
ghost use Rattle.brr_encode.specs.EncoderParts.{after_target, after_targets, coder_after};

use crate::OutOfMemory;
use crate::choice::nearest;

/// Where an encoder stands in a block: the last two kept samples, and the errors of the block so far.
#[derive(Clone, Copy)]
pub struct Coder {
    pub last: i16,
    pub before: i16,
    pub worst: u32,
    pub squares: u64,
}

impl Coder {
    /// An encoder before the first block.
    pub fn start() -> Coder
        ensures { result ≡ coder_after (pos 0) (pos 0) }
    {
        Coder {
            last: 0,
            before: 0,
            worst: 0,
            squares: 0,
        }
    }
}

/// A digit, and the encoder after it.
#[derive(Clone, Copy)]
struct Coded {
    digit: i16,
    coder: Coder,
}

/// The digit of a target.
fn code(header: u8, target: i16, coder: Coder) -> Coded
    requires { coder.squares < 2 ^ 40 }
    ensures digit { result.digit ≡ nearest_digit header target coder.last coder.before }
    ensures coder { result.coder ≡ after_target header coder target }
    ensures bound { result.coder.squares < coder.squares + 2 ^ 32 }
{
    let choice = nearest(header, target, coder.last, coder.before);
    let distance = u64::from(choice.distance);
    Coded {
        digit: choice.digit,
        coder: Coder {
            last: choice.sample,
            before: coder.last,
            worst: coder.worst.max(choice.distance),
            squares: coder.squares + distance * distance,
        },
    }
}

/// Two digits in a byte, the first one high.
fn digit_byte(high: Coded, low: Coded) -> u8
    ensures { result ≡ digit_bits high.digit * 0x10 + digit_bits low.digit }
{
    high.digit.rem_euclid(16) as u8 * 0x10 + low.digit.rem_euclid(16) as u8
}

/// Appends the digits of targets under a header, and gives the encoder after them.
pub fn push_digits(
    bytes: &mut Vec<u8>,
    header: u8,
    targets: &[i16],
    p1: i16,
    p2: i16,
) -> Result<Coder, OutOfMemory>
    requires pairs { length targets.now % 2 ≡ 0 }
    requires few { length targets.now ≤ 16 }
    ensures bytes { IfOk result (λ _. bytes.new.items ≡ bytes.old.items ++ digit_bytes (greedy_digits header p1 p2 targets.now)) }
    ensures coder { IfOk result (λ coder. coder ≡ after_targets header (coder_after p1 p2) targets.now) }
    ensures squares { IfOk result (λ coder. coder.squares ≤ max_squares) }
{
    let mut coder = Coder {
        last: p1,
        before: p2,
        worst: 0,
        squares: 0,
    };
    let mut rest = targets;
    'pairs: while let Some((pair, tail)) = rest.split_first_chunk::<2>() {
        let high = code(header, pair[0], coder);
        let low = code(header, pair[1], high.coder);
        bytes.push(digit_byte(high, low))?;
        coder = low.coder;
        rest = tail;
    }
    Ok(coder)
}
