// A player's calls over a made file, in which voice 0 sounds the same from frame 6 on.
use crate::{PlayerOptions, mute, open_bytes, voice};
use cut_form::Marked;
use dsp_core::Dsp;
use player::{Player, StereoFrame};
use spc_form::{Length, Tag};
use std::process::Abort;
use std::test::Fail;
use test_support::{DSP, FILE_LENGTH, FIVE, Pieces, file_of, straight_table};

/// Tags that show a title, a second, and a fade of a millisecond, 32 frames.
const TAGGED: &[(usize, &[u8])] = &[
    (0x23, b"\x1a"),
    (0x2e, b"Five steps"),
    (0xa9, b"001"),
    (0xac, b"00001"),
];

const OPTIONS: PlayerOptions = PlayerOptions {
    pages: 512,
    mark_seconds: 0,
    muted: 0,
};

/// A frame with the same number on both sides.
fn even(side: i16) -> StereoFrame {
    StereoFrame {
        left: side,
        right: side,
    }
}

/// Plays eight frames of the opening: six are silent.
fn look_at_the_opening(rt: &impl Abort, player: &mut Player<Dsp>) {
    let mut frames = [even(1); 8];
    let given = player.play(&mut frames);
    assert!(rt; given == 8);
    assert!(rt; frames.iter().take(6).all(|frame| *frame == even(0)));
    assert!(rt; frames.iter().skip(6).all(|frame| *frame == even(4000)));
}

/// Its envelope is at 127 times 16 and its output at 4,064, of which OUTX has the high byte.
fn look_at_the_voice(rt: &impl Abort, player: &Player<Dsp>) {
    let shown = voice(player, 0);
    assert!(rt; (shown.level, shown.pitch, shown.output, shown.source) == (2032, 4096, 15, 0));
}

/// A mark at the position is taken once, and a seek to it makes no frame.
fn look_at_a_mark(rt: &impl Abort, player: &mut Player<Dsp>) {
    let (first, second) = (player.mark(), player.mark());
    assert!(rt; (first, second) == (Marked::Taken { gave: 0 }, Marked::Kept));
    player.seek(2);
    assert!(rt; (player.position(), player.made()) == (2, 10));
    player.seek(8);
    assert!(rt; (player.position(), player.made()) == (8, 10));
}

/// The 32 frames of the fade go down in steps of 4000 / 32, and none follows.
fn look_at_the_fade(rt: &impl Abort, player: &mut Player<Dsp>) {
    player.seek(32_000);
    let mut frames = [even(1); 40];
    let given = player.play_faded(&mut frames);
    assert!(rt; given == 32);
    let (first, last, behind) = (frames[0], frames[31], frames[32]);
    assert!(rt; (first, last, behind) == (even(3875), even(0), even(1)));
}

/// An end of the caller's: 16 frames of a fade, in steps of 4000 / 16, and then back to that of the tags.
fn look_at_another_end(rt: &impl Abort, player: &mut Player<Dsp>) {
    let known = player.length();
    player.set_end(Length {
        frames: 64,
        fade: 16,
    });
    player.seek(48);
    let mut frames = [even(1); 20];
    assert!(rt; player.play_faded(&mut frames) == 16);
    let (first, last, behind) = (frames[0], frames[15], frames[16]);
    assert!(rt; (first, last, behind) == (even(3750), even(0), even(1)));
    assert!(rt; player.length() == known);
    player.set_end(known);
    assert!(rt; player.play_faded(&mut frames) == 20);
}

/// A title that is cut off where there is no more room, and the whole title's length.
fn look_at_the_title(rt: &impl Abort, player: &Player<Dsp>) {
    let mut text = [b'.'; 5];
    let length = player.tag(Tag::Title, &mut text);
    assert!(rt; player.is_tagged() && length == 10);
    assert!(rt; text.as_slice() == b"Five\0".as_slice());
}

#[test]
fn a_made_file_is_played(rt: HostRuntime) -> Result<(), Fail> {
    let alloc = rt.alloc();
    let image = file_of(alloc, FILE_LENGTH, FIVE, TAGGED)?;
    let table = straight_table(alloc)?;
    let mut player = open_bytes(alloc, &image, &table, OPTIONS)?;
    look_at_the_title(&rt, &player);
    look_at_the_opening(&rt, &mut player);
    look_at_the_voice(&rt, &player);
    look_at_a_mark(&rt, &mut player);
    look_at_the_fade(&rt, &mut player);
    look_at_another_end(&rt, &mut player);
    Ok(())
}

/// Pages and seconds, and whether a player takes them.
const RANGES: [(u32, u32, bool); 6] = [
    (512, 3600, true),
    (512, 3601, false),
    (256, 0, true),
    (255, 0, false),
    (65536, 0, true),
    (65537, 0, false),
];

#[test]
fn options_end_where_their_ranges_do(rt: HostRuntime) {
    for (pages, mark_seconds, wanted) in RANGES {
        let options = PlayerOptions {
            pages,
            mark_seconds,
            muted: 0,
        };
        assert!(rt;
            options.are_in_range() == wanted,
            "{pages} and {mark_seconds}"
        );
    }
}

/// Voice 1 plays as voice 0 does, at volume 64.
const TWO_VOICES: Pieces = &[
    (DSP + 0x10, b"\x40\x40\0\x10\0\0\0\x7f"),
    (DSP + 0x4c, b"\x03"),
];

/// In traces of two files with one voice each the outputs are 4,064: 4,032 at volume 127 and 2,032 at 64. The main volumes, 127 too, make
/// 6,016 of both, 2,016 of voice 1 and 4,000 of voice 0.
#[test]
fn muted_voices_are_not_played(rt: HostRuntime) -> Result<(), Fail> {
    let alloc = rt.alloc();
    let image = file_of(alloc, FILE_LENGTH, FIVE, TWO_VOICES)?;
    let table = straight_table(alloc)?;
    for (muted, side) in [(0x00, 6016), (0x01, 2016), (0xfe, 4000), (0x03, 0)] {
        let options = PlayerOptions { muted, ..OPTIONS };
        let mut player = open_bytes(alloc, &image, &table, options)?;
        let mut frames = [even(1); 8];
        player.play(&mut frames);
        assert!(rt; frames.iter().take(6).all(|frame| *frame == even(0)));
        assert!(rt;
            frames.iter().skip(6).all(|frame| *frame == even(side)),
            "{muted}"
        );
    }
    Ok(())
}

/// Where it stands, one that mutes other voices plays on as those do that were opened so; once more with none muted, as at first.
#[test]
fn voices_are_muted_while_it_plays(rt: HostRuntime) -> Result<(), Fail> {
    let alloc = rt.alloc();
    let image = file_of(alloc, FILE_LENGTH, FIVE, TWO_VOICES)?;
    let table = straight_table(alloc)?;
    let mut player = open_bytes(alloc, &image, &table, OPTIONS)?;
    player.seek(6);
    for (muted, side) in [(0x01, 2016), (0xfe, 4000), (0x03, 0), (0x00, 6016)] {
        mute(&mut player, muted);
        let mut frames = [even(1); 2];
        player.play(&mut frames);
        assert!(rt; frames.iter().all(|frame| *frame == even(side)), "{muted}");
    }
    assert!(rt; player.position() == 14);
    assert!(rt; player.free_pages() == 256);
    Ok(())
}

/// A seek of at most two frames a call is there with the third, and has made as many as one seek.
#[test]
fn a_seek_goes_on_in_parts(rt: HostRuntime) -> Result<(), Fail> {
    let alloc = rt.alloc();
    let image = file_of(alloc, FILE_LENGTH, FIVE, TAGGED)?;
    let table = straight_table(alloc)?;
    let mut player = open_bytes(alloc, &image, &table, OPTIONS)?;
    let there = [
        player.seek_some(5, 2),
        player.seek_some(5, 2),
        player.seek_some(5, 2),
    ];
    assert!(rt; there == [false, false, true]);
    assert!(rt; (player.position(), player.made()) == (5, 5));
    Ok(())
}
