// The cells of the echo buffer in the bytes of a page.
ghost use Rattle.std.specs.Prelude.{◌≡◌, ◌+◌, ◌≤◌, length};
ghost use Rattle.echo_unit.specs.Page.{halved_at, pair_in, with_word_in, with_pair_in};

use aram_core::PAGE_SIZE;
use num_fix::{Frame, half};

/// The word at a place of a page, read with a sign and halved.
#[tactic(auto, unfolding(crate::specs::Page::halved_at))]
fn halved_at(page: &[u8], at: usize) -> i16
    requires page { length page.now ≡ PAGE_SIZE }
    requires within { at + 2 ≤ PAGE_SIZE }
    ensures { result ≡ halved_at page.now at }
{
    let word = u16::from(page[at]) + 256 * u16::from(page[at + 1]);
    half(word.cast_signed())
}

/// The pair of the cell at a place of a page.
pub fn pair_in(page: &[u8], at: usize) -> Frame
    requires page { length page.now ≡ PAGE_SIZE }
    requires within { at + 4 ≤ PAGE_SIZE }
    ensures { result ≡ pair_in page.now at }
{
    Frame {
        left: halved_at(page, at),
        right: halved_at(page, at + 2),
    }
}

/// Puts a signed word at a place of a page, low byte first.
#[tactic(auto, unfolding(crate::specs::Page::with_word_in))]
fn put_word(page: &mut [u8; PAGE_SIZE], at: usize, word: i16)
    requires { at + 2 ≤ PAGE_SIZE }
    ensures { page.new ≡ with_word_in page.old at word }
{
    let bits = word.cast_unsigned();
    page[at] = (bits % 256) as u8;
    page[at + 1] = (bits / 256) as u8;
}

/// Puts both words of the cell at a place of a page.
pub fn put_pair(page: &mut [u8; PAGE_SIZE], at: usize, left: i16, right: i16)
    requires { at + 4 ≤ PAGE_SIZE }
    ensures { page.new ≡ with_pair_in page.old at left right }
{
    put_word(page, at, left);
    put_word(page, at + 2, right);
}
