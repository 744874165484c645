// What C can ask of a player.
ghost use Rattle.std.specs.Prelude.{◌≡◌, ◌≢◌, ◌≤◌, nat_lt, IfSome, length};
ghost use Rattle.cut_form.specs.Checkpoints.{slots_free};
ghost use Rattle.spc_form.specs.Tags.{length_of, has_tags};
ghost use Rattle.player.specs.Output.{with_text};
ghost use Rattle.player.specs.Player.{position_of, marks_of, pool_capacity};
ghost use Rattle.spc_player.specs.Player.{chip_here};
ghost use Rattle.spc_player.specs.Voices.{shown_voice};
ghost use Rattle.player_c.specs.Handle.{playing, IsOpen};
ghost use Rattle.player_c.specs.Status.{ok, range_status, version};
ghost use Rattle.player_c.specs.Tags.{tag_text};

use crate::handle::SpcwavePlayer;
use crate::status::{OK, OUT_OF_RANGE};
use crate::tags::tag_of;
use player::put_text;
use spc_player::ShownVoice;

/// The version of the library: 65,536 times the first of its three numbers, 256 times the second, and the third.
#[unsafe(no_mangle)]
pub extern "C" fn spcwave_version() -> u32
    ensures { result ≡ version }
{
    0x01_02_00
}

/// The position: how many frames stand before it.
#[unsafe(no_mangle)]
pub extern "C" fn spcwave_position(player: &mut SpcwavePlayer) -> u32
    requires { IsOpen player.old }
    ensures position { IfSome (playing player.old) (λ p. result ≡ position_of p) }
    ensures same { playing player.new ≡ playing player.old }
{
    player.owned.player().position()
}

/// How many pages are free for marks.
#[unsafe(no_mangle)]
pub extern "C" fn spcwave_free_pages(player: &mut SpcwavePlayer) -> u32
    requires { IsOpen player.old }
    ensures free { IfSome (playing player.old) (λ p. result ≡ slots_free (pool_capacity p) (marks_of p)) }
    ensures same { playing player.new ≡ playing player.old }
{
    player.owned.player().free_pages()
}

/// The length by the tags of the file, and how many of its last frames fade out, in frames.
#[unsafe(no_mangle)]
pub extern "C" fn spcwave_length(player: &mut SpcwavePlayer, frames: &mut u32, fade: &mut u32)
    requires { IsOpen player.old }
    ensures length { IfSome (playing player.old) (λ p. record { frames = frames.new; fade = fade.new } ≡ length_of p.file) }
    ensures same { playing player.new ≡ playing player.old }
{
    let length = player.owned.player().length();
    *frames = length.frames;
    *fade = length.fade;
}

/// Whether the file says that it has tags.
#[unsafe(no_mangle)]
pub extern "C" fn spcwave_tagged(player: &mut SpcwavePlayer) -> bool
    requires { IsOpen player.old }
    ensures tagged { IfSome (playing player.old) (λ p. result ≡ has_tags p.file) }
    ensures same { playing player.new ≡ playing player.old }
{
    player.owned.player().is_tagged()
}

/// Writes the text of a tag as `player::Player::tag` does, and returns its whole length. It is empty where no tag has the number: 0 title, 1 game,
/// 2 artist, 3 dumper, 4 comments, 5 date, 6 seconds, 7 fade.
#[unsafe(no_mangle)]
pub extern "C" fn spcwave_tag(player: &mut SpcwavePlayer, number: u32, text: &mut [u8]) -> usize
    requires { IsOpen player.old }
    ensures text { IfSome (playing player.old) (λ p. text.new ≡ with_text (tag_text p.file number) text.old) }
    ensures length { IfSome (playing player.old) (λ p. result ≡ length (tag_text p.file number)) }
    ensures short { result ≤ 32 }
    ensures same { playing player.new ≡ playing player.old }
{
    if let Some(tag) = tag_of(number) {
        return player.owned.player().tag(tag, text);
    }
    put_text(&[], text);
    0
}

/// Copies the 128 registers of the S-DSP at the position.
#[unsafe(no_mangle)]
pub extern "C" fn spcwave_registers(player: &mut SpcwavePlayer, registers: &mut [u8; 128])
    requires { IsOpen player.old }
    ensures registers { IfSome (playing player.old) (λ p. registers.new ≡ (chip_here p).registers) }
    ensures same { playing player.new ≡ playing player.old }
{
    *registers = *spc_player::registers(player.owned.player());
}

/// Writes what shows of voice 0 to 7 at the position. Where it isn't known it stays as it was.
#[unsafe(no_mangle)]
pub extern "C" fn spcwave_voice(
    player: &mut SpcwavePlayer,
    number: u32,
    voice: &mut ShownVoice,
) -> u32
    requires { IsOpen player.old }
    ensures status { result ≡ range_status (nat_lt number 8) }
    ensures voice { result ≡ ok → IfSome (playing player.old) (λ p. voice.new ≡ shown_voice (chip_here p) number) }
    ensures bound { result ≡ ok → voice.new.level ≤ 2047 }
    ensures otherwise { result ≢ ok → voice.new ≡ voice.old }
    ensures same { playing player.new ≡ playing player.old }
{
    if number >= 8 {
        return OUT_OF_RANGE;
    }
    *voice = spc_player::voice(player.owned.player(), number as u8);
    OK
}
