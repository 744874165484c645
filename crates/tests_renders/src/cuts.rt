// Worked cuts and marks of a tune that changes one page of its memory after 63 samples.
ghost use Rattle.std.specs.Prelude.{◌≡◌, ◌≤◌};
ghost use Rattle.page_pool.specs.Pool.{max_pages};
ghost use Rattle.cut_form.specs.Checkpoints.{min_pages};

use chip_form::Chip;
use cut_server::{CutServer, Marked, NoPages};
use dsp_core::Dsp;
use gauss_table::GaussTable;
use num_fix::Frame;
use spc_form::{SpcFile, read_spc};
use std::alloc::Global;
use std::test::Fail;
use test_support::{ENDS_THE_BLOCK, FILE_LENGTH, FIVE, Pieces, file_of};
use trace_form::Frames;

/// A file whose voice 0 plays a block that repeats itself, with these pieces more.
fn file(alloc: Global, more: Pieces) -> Result<SpcFile, Fail> {
    let image = file_of(alloc, FILE_LENGTH, FIVE, more)?;
    Ok(read_spc(alloc, &image)?)
}

/// A call of a server.
#[derive(Clone, Copy)]
enum Call {
    Seek(u32),
    Play(u32),
    PlayInto(u16),
    Checkpoint,
    Mark,
    Drop(u32),
}

/// Where a server stands: its position, live checkpoints, free pages, and the samples made.
type Standing = (u32, u32, u32, u64);

/// What came of calls.
#[derive(Drop)]
struct Known {
    frames: Vec<Frame>,
    marks: Vec<Marked>,
    standing: Standing,
    /// The number of the next sample of the current chip, and the samples that it made.
    chip: (u32, u64),
    /// The samples below 100 at which a checkpoint stands.
    live: Vec<u32>,
}

/// Makes a call, where it may be made.
fn make<C: Chip>(
    alloc: Global,
    server: &mut CutServer<C>,
    call: Call,
    known: &mut Known,
) -> Result<(), Fail> {
    match call {
        Call::Seek(at) if at <= 1000 => server.seek(at),
        Call::Play(most) if (1..=64).contains(&most) && server.at() <= 1000 => {
            let mut frames = Frames::new(alloc)?;
            server.play(most, &mut frames);
            known.frames.extend_from_slice(frames.as_slice())?;
        }
        Call::PlayInto(count) if server.at() <= 1000 => {
            let mut frames = vec![in alloc; UNPLAYED; usize::from(count)]?;
            server.play_into(&mut frames);
            known.frames.extend_from_slice(frames.as_slice())?;
        }
        Call::Checkpoint if !server.has(server.at()) && server.count() < 64 => {
            if let Err(NoPages { need, free }) = server.checkpoint() {
                known.marks.push(Marked::NoPages {
                    gave: 0,
                    need,
                    free,
                })?;
            }
        }
        Call::Mark => known.marks.push(server.mark())?,
        Call::Drop(sample) if sample > 0 && server.has(sample) => server.drop_at(sample),
        _ => {}
    }
    known.standing = (server.at(), server.count(), server.free(), server.work());
    known.chip = (server.chip().sample(), server.chip().total());
    Ok(())
}

/// Makes calls of a server, and sees at which of the first samples a checkpoint then stands.
fn make_all<C: Chip>(
    alloc: Global,
    server: &mut CutServer<C>,
    calls: &[Call],
    known: &mut Known,
) -> Result<(), Fail> {
    for call in calls {
        make(alloc, server, *call, known)?;
    }
    for sample in 0..100 {
        if server.has(sample) {
            known.live.push(sample)?;
        }
    }
    Ok(())
}

/// Makes calls of a server of a file over a chip, with so many pages.
fn serve<C: Chip>(
    alloc: Global,
    file: &SpcFile,
    chip: C,
    pages: u32,
    calls: &[Call],
    known: &mut Known,
) -> Result<(), Fail>
    requires enough { min_pages ≤ pages }
    requires few { pages ≤ max_pages }
    requires sample { C.sample chip ≡ 0 }
    requires batches { C.batches chip ≡ 0 }
    requires total { C.total chip ≡ 0 }
{
    let mut server = CutServer::open(alloc, file, chip, pages)?;
    make_all(alloc, &mut server, calls, known)
}

/// Makes calls of a server of a file with these pieces more, with so many pages.
fn served(alloc: Global, more: Pieces, pages: u32, calls: &[Call]) -> Result<Known, Fail>
    requires enough { min_pages ≤ pages }
    requires few { pages ≤ max_pages }
{
    let mut known = Known {
        frames: Vec::new(alloc),
        marks: Vec::new(alloc),
        standing: (0, 0, 0, 0),
        chip: (0, 0),
        live: Vec::new(alloc),
    };
    let file = file(alloc, more)?;
    let chip = Dsp::open(alloc, file.dsp(), GaussTable::straight(alloc)?, 0)?;
    serve(alloc, &file, chip, pages, calls, &mut known)?;
    Ok(known)
}

/// What stands at a place before a frame is played into it.
const UNPLAYED: Frame = Frame { left: 1, right: 2 };

const SILENT: Frame = Frame { left: 0, right: 0 };

const LOUD: Frame = Frame {
    left: 4000,
    right: 4000,
};

#[test]
fn cuts_of_three_checkpoints(rt: HostRuntime) -> Result<(), Fail> {
    let calls = [
        Call::Seek(0),
        Call::Play(1),
        Call::Seek(70),
        Call::Checkpoint,
        Call::Seek(70),
        Call::Play(1),
        Call::Seek(60),
        Call::Checkpoint,
        Call::Seek(60),
        Call::Play(2),
    ];
    let known = served(rt.alloc(), ENDS_THE_BLOCK, 4096, &calls)?;
    assert!(rt; known.frames.as_slice() == [SILENT, SILENT, LOUD, LOUD].as_slice());
    assert!(rt; known.standing == (62, 3, 4096 - 258, 133));
    assert!(rt; known.chip == (62, 133));
    assert!(rt; known.live.as_slice() == [0, 60, 70].as_slice());
    Ok(())
}

/// One slice is shorter than a batch, the other longer.
#[test]
fn two_slices_are_filled(rt: HostRuntime) -> Result<(), Fail> {
    let calls = [
        Call::Seek(60),
        Call::PlayInto(2),
        Call::Seek(70),
        Call::PlayInto(200),
    ];
    let known = served(rt.alloc(), ENDS_THE_BLOCK, 256, &calls)?;
    assert!(rt; known.frames.len() == 202);
    assert!(rt; known.frames.iter().take(2).all(|frame| *frame == LOUD));
    assert!(rt; known.frames.iter().skip(2).all(|frame| *frame == SILENT));
    assert!(rt; known.standing == (270, 1, 0, 270));
    assert!(rt; known.chip == (270, 270));
    Ok(())
}

/// The first mark takes the last page, the second finds its checkpoint there, and the third gives that one up.
#[test]
fn a_mark_gives_up_another_one(rt: HostRuntime) -> Result<(), Fail> {
    let calls = [
        Call::Seek(70),
        Call::Mark,
        Call::Mark,
        Call::Seek(60),
        Call::Mark,
    ];
    let known = served(rt.alloc(), ENDS_THE_BLOCK, 257, &calls)?;
    let wanted = [
        Marked::Taken { gave: 0 },
        Marked::Kept,
        Marked::Taken { gave: 1 },
    ];
    assert!(rt; known.marks.as_slice() == wanted.as_slice());
    assert!(rt; known.standing == (60, 2, 1, 130));
    assert!(rt; known.live.as_slice() == [0, 60].as_slice());
    Ok(())
}

#[test]
fn a_mark_is_dropped(rt: HostRuntime) -> Result<(), Fail> {
    let calls = [Call::Seek(60), Call::Mark, Call::Drop(60)];
    let known = served(rt.alloc(), ENDS_THE_BLOCK, 257, &calls)?;
    assert!(rt; known.standing == (60, 1, 1, 60));
    Ok(())
}

#[test]
fn a_mark_without_pages(rt: HostRuntime) -> Result<(), Fail> {
    let calls = [Call::Seek(70), Call::Mark, Call::Checkpoint];
    let known = served(rt.alloc(), ENDS_THE_BLOCK, 256, &calls)?;
    let wanted = Marked::NoPages {
        gave: 0,
        need: 1,
        free: 0,
    };
    assert!(rt; known.marks.as_slice() == [wanted; 2].as_slice());
    assert!(rt; known.standing == (70, 1, 0, 70));
    Ok(())
}

/// A mark at each of the samples 1 to 64.
fn calls_of_64_marks(alloc: Global) -> Result<Vec<Call>, Fail> {
    let mut calls = Vec::new(alloc);
    for sample in 1..=64 {
        calls.push(Call::Seek(sample))?;
        calls.push(Call::Mark)?;
    }
    Ok(calls)
}

/// Whether 64 marks were taken, the last of which alone gave one up.
fn are_64_taken(marks: &[Marked]) -> bool {
    marks.len() == 64
        && marks.iter().enumerate().all(|(place, marked)| {
            let gave = if place < 63 { 0 } else { 1 };
            *marked == Marked::Taken { gave }
        })
}

/// The last mark gives up the first.
#[test]
fn a_mark_after_64(rt: HostRuntime) -> Result<(), Fail> {
    let calls = calls_of_64_marks(rt.alloc())?;
    let known = served(rt.alloc(), &[], 256, calls.as_slice())?;
    assert!(rt; are_64_taken(known.marks.as_slice()));
    assert!(rt; known.standing == (64, 64, 0, 64));
    assert!(rt; known.live.get(1) == Some(&2));
    Ok(())
}
