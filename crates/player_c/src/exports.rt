// What C calls. No call but `spcwave_open` takes memory: of `spcwave_close`, which is lent an allocator too, that is tested.
ghost use Rattle.std.specs.Prelude.{◌≡◌, ◌≢◌, ◌+◌, ◌-◌, ◌++◌, ◌⊎◌, ◌&&◌, true, nat_le, min, map, Some, None, Err, IfErr, IfOk, IfSome, length, drop};
ghost use Rattle.num_fix.specs.Limits.{max_frames};
ghost use Rattle.cut_form.specs.Slices.{slice_of};
ghost use Rattle.player.specs.Output.{stereo};
ghost use Rattle.player.specs.Player.{position_of, made_of};
ghost use Rattle.spc_player.specs.Inputs.{inputs_of, IsOpened};
ghost use Rattle.spc_player.specs.Options.{are_in_range};
ghost use Rattle.spc_player.specs.Player.{frames_of, faded_frames_played, marking};
ghost use Rattle.spc_player.specs.declared.refusal.PlayerRefusal.TheVariants as refusals;
ghost use Rattle.player_c.specs.Closing.{IsHandleOrNull, nothing_there};
ghost use Rattle.player_c.specs.Handle.{playing, playing_in, IsOpen, IsOpeningIn, Moved, PlayedOn, Sought, SoughtNear, SoughtSome, LeftToSeek, Muted, EndsAt};
ghost use Rattle.player_c.specs.Options.{options_of};
ghost use Rattle.player_c.specs.Status.{ok, out_of_memory, out_of_range, inputs_status, open_status, range_status, seek_status};

use crate::handle::SpcwavePlayer;
use crate::options::SpcwaveOptions;
use crate::pointer::SpcwavePointer;
use crate::status::{NOT_YET, OK, OUT_OF_MEMORY, OUT_OF_RANGE, status_of};
use cut_form::MAX_FRAMES;
use dsp_core::Dsp;
use player::{Player, StereoFrame};
use spc_form::Length;
use spc_player::{PlayerOptions, PlayerRefusal, mute, open_bytes};
use std::alloc::Global;

/// Opens a player on the heap.
fn open_boxed(
    alloc: Global,
    spc: &[u8],
    table: &[u8],
    options: PlayerOptions,
) -> Result<Box<Player<Dsp>>, PlayerRefusal>
    requires { are_in_range options ≡ true }
    ensures opened { IfOk result (λ player. IsOpened spc.now table.now options player.value) }
    ensures refused { IfErr (inputs_of spc.now table.now) (λ refusal. result ≡ Err refusal) }
    ensures causes { IfErr result (λ refusal. (inputs_of spc.now table.now ≡ Err refusal) ⊎ (refusal ≡ refusals.OutOfMemory)) }
{
    let player = open_bytes(alloc, spc, table, options)?;
    match Box::new(alloc, player) {
        Ok(opened) => Ok(opened),
        Err(_) => Err(PlayerRefusal::OutOfMemory),
    }
}

/// Puts a player into a handle on the heap, and writes the handle's address.
fn put_in_handle(alloc: Global, player: &mut SpcwavePointer, opened: Box<Player<Dsp>>) -> u32
    requires { player.old.handle ≡ None }
    ensures put { result ≡ ok → playing_in player.new.handle ≡ Some opened.value }
    ensures otherwise { result ≢ ok → player.new ≡ player.old }
    ensures causes { (result ≡ ok) ⊎ (result ≡ out_of_memory) }
{
    match Box::new(alloc, SpcwavePlayer::none()) {
        Ok(mut handle) => {
            handle.owned.put(opened);
            player.put(handle);
            OK
        }
        Err(_) => OUT_OF_MEMORY,
    }
}

/// Opens a player in a handle on the heap, and writes the handle's address.
fn open_handle(
    alloc: Global,
    player: &mut SpcwavePointer,
    spc: &[u8],
    table: &[u8],
    options: PlayerOptions,
) -> u32
    requires none { player.old.handle ≡ None }
    requires in_range { are_in_range options ≡ true }
    ensures opened { result ≡ ok → IsOpeningIn spc.now table.now options player.new.handle }
    ensures otherwise { result ≢ ok → player.new ≡ player.old }
    ensures refused { inputs_status spc.now table.now ≢ ok → result ≡ inputs_status spc.now table.now }
    ensures accepted { inputs_status spc.now table.now ≡ ok → (result ≡ ok) ⊎ (result ≡ out_of_memory) }
{
    match open_boxed(alloc, spc, table, options) {
        Ok(opened) => put_in_handle(alloc, player, opened),
        Err(refusal) => status_of(refusal),
    }
}

/// Opens a player of the tune of an SPC file over a table of weights, with these options, in a handle on the heap, and writes the handle's
/// address. Options, file and table are looked at before any memory is taken. Where it is refused nothing is written.
#[unsafe(no_mangle)]
pub extern "C" fn spcwave_open(
    alloc: Global,
    player: &mut SpcwavePointer,
    spc: &[u8],
    table: &[u8],
    options: &SpcwaveOptions,
) -> u32
    requires { player.old.handle ≡ None }
    ensures opened { result ≡ ok → IfSome (options_of options.now) (λ options. IsOpeningIn spc.now table.now options player.new.handle) }
    ensures otherwise { result ≢ ok → player.new ≡ player.old }
    ensures refused { open_status options.now spc.now table.now ≢ ok → result ≡ open_status options.now spc.now table.now }
    ensures accepted { open_status options.now spc.now table.now ≡ ok → (result ≡ ok) ⊎ (result ≡ out_of_memory) }
{
    match options.options() {
        None => OUT_OF_RANGE,
        Some(options) => open_handle(alloc, player, spc, table, options),
    }
}

/// Gives the memory of a player and of its handle back, and writes a null pointer. Where that stands already nothing happens.
#[unsafe(no_mangle)]
pub extern "C" fn spcwave_close(alloc: Global, player: &mut SpcwavePointer)
    requires stands { IsHandleOrNull player.old }
    requires open { IfSome player.old.handle IsOpen }
    ensures { player.new ≡ nothing_there }
{
    if !player.is_nothing() {
        let mut handle = player.take(alloc);
        let _player = handle.owned.take(alloc);
    }
    *player = SpcwavePointer::nothing();
}

/// Plays the next frames, as many as there is room for, but not past an hour; returns how many.
#[unsafe(no_mangle)]
pub extern "C" fn spcwave_play(player: &mut SpcwavePlayer, frames: &mut [StereoFrame]) -> usize
    requires { IsOpen player.old }
    ensures count { IfSome (playing player.old) (λ p. result ≡ min (length frames.old) (max_frames - position_of p)) }
    ensures frames { IfSome (playing player.old) (λ p. frames.new ≡ map stereo (slice_of (frames_of p) (position_of p) result) ++ drop result frames.old) }
    ensures moved { PlayedOn result (playing player.old) (playing player.new) }
{
    player.owned.player().play(frames)
}

/// Plays the next frames of a render, which is as long as the end says and fades as it says; returns how many.
#[unsafe(no_mangle)]
pub extern "C" fn spcwave_play_faded(
    player: &mut SpcwavePlayer,
    frames: &mut [StereoFrame],
) -> usize
    requires { IsOpen player.old }
    ensures count { IfSome (playing player.old) (λ p. result ≡ min (length frames.old) (p.end.frames - position_of p)) }
    ensures frames { IfSome (playing player.old) (λ p. frames.new ≡ map stereo (faded_frames_played p result) ++ drop result frames.old) }
    ensures moved { PlayedOn result (playing player.old) (playing player.new) }
{
    player.owned.player().play_faded(frames)
}

/// Has `spcwave_play_faded` end at another length, 0 to 115,200,000 frames, and fade out so many of its last, at most as many.
#[unsafe(no_mangle)]
pub extern "C" fn spcwave_set_end(player: &mut SpcwavePlayer, frames: u32, fade: u32) -> u32
    requires { IsOpen player.old }
    ensures status { result ≡ range_status (nat_le frames max_frames && nat_le fade frames) }
    ensures ends { result ≡ ok → EndsAt (record { frames = frames; fade = fade }) (playing player.old) (playing player.new) }
    ensures otherwise { result ≢ ok → playing player.new ≡ playing player.old }
{
    if frames > MAX_FRAMES || fade > frames {
        return OUT_OF_RANGE;
    }
    player.owned.player().set_end(Length { frames, fade });
    OK
}

/// Goes to a frame, 0 to 115,200,000: 32,000 are a second. It makes at most the frames from any mark up to it.
#[unsafe(no_mangle)]
pub extern "C" fn spcwave_seek(player: &mut SpcwavePlayer, frame: u32) -> u32
    requires { IsOpen player.old }
    ensures status { result ≡ range_status (nat_le frame max_frames) }
    ensures moved { result ≡ ok → Sought frame (playing player.old) (playing player.new) }
    ensures near { result ≡ ok → SoughtNear frame (playing player.old) (playing player.new) }
    ensures otherwise { result ≢ ok → playing player.new ≡ playing player.old }
{
    if frame > MAX_FRAMES {
        return OUT_OF_RANGE;
    }
    player.owned.player().seek(frame);
    OK
}

/// Goes towards a frame, and makes at most so many frames for it, 1 or more; returns whether it is there. Called again until it is, it makes as
/// many as one seek.
#[unsafe(no_mangle)]
pub extern "C" fn spcwave_seek_some(player: &mut SpcwavePlayer, frame: u32, most: u32) -> u32
    requires { IsOpen player.old }
    ensures status { IfSome (playing player.old) (λ p. result ≡ seek_status p frame most) }
    ensures moved { result ≢ out_of_range → SoughtSome frame most (playing player.old) (playing player.new) }
    ensures left { result ≢ out_of_range → LeftToSeek frame most (playing player.old) (playing player.new) }
    ensures otherwise { result ≡ out_of_range → playing player.new ≡ playing player.old }
{
    if frame > MAX_FRAMES || most == 0 {
        return OUT_OF_RANGE;
    }
    if player.owned.player().seek_some(frame, most) {
        OK
    } else {
        NOT_YET
    }
}

/// Mutes these voices from now on and no others, bit v is voice v: the player is as one that was opened with them and sought to its position. It
/// makes the frames before that once more, and only the mark of frame 0 is left.
#[unsafe(no_mangle)]
pub extern "C" fn spcwave_mute(player: &mut SpcwavePlayer, voices: u8)
    requires { IsOpen player.old }
    ensures { Muted voices (playing player.old) (playing player.new) }
{
    mute(player.owned.player(), voices);
}

/// Takes a mark at the position, so that a later seek to it or behind it is quick. It may give up those taken first.
#[unsafe(no_mangle)]
pub extern "C" fn spcwave_mark(player: &mut SpcwavePlayer)
    requires { IsOpen player.old }
    ensures { Moved position_of (λ p. (marking p).live) made_of (playing player.old) (playing player.new) }
{
    player.owned.player().mark();
}
