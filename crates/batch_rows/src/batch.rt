//! A batch by rows.

ghost use Rattle.std.specs.Prelude.{◌≡◌, ◌≤◌, ◌+◌, length};
ghost use Rattle.trace_form.specs.Capacities.{frame_capacity};
ghost use Rattle.dsp_state.specs.Settings.{settings_of};
ghost use Rattle.batch_rows.specs.AddsFrames.{AddsFrames};
ghost use Rattle.batch_rows.specs.Reads.{IsBatch, batch_by_rows};

use crate::echoes::play_echo;
use crate::endx::endx_of_batch;
use crate::keys::step_keys;
use crate::playing::{PlayedBatch, play_voices};
use crate::reads::{BatchReads, BatchSamples};
use aram_core::Aram;
use dsp_state::registers::ENDX;
use dsp_state::{ChipState, Settings, put_all_levels};
use trace_form::Frames;
use voice_batch::Workspace;

/// Plays a batch by rows: the keys and the noise, each voice over the whole batch, the echo over the rows of sums, and the registers' results. What stands
/// in the places for what is made is ignored.
#[tactic(auto, unfolding(crate::specs::Rows::by_rows))]
pub fn play_batch(
    state: &mut ChipState,
    samples: &BatchSamples,
    settings: &Settings,
    memory: &mut Aram,
    work: &mut Workspace,
    made: &mut PlayedBatch,
    frames: &mut Frames,
)
    requires batch { IsBatch samples.now }
    requires settings { settings.now ≡ settings_of state.old.registers state.old.muted }
    requires frame_capacity { length frames.old + samples.now.n ≤ frame_capacity }
    ensures made { AddsFrames (batch_by_rows samples.now state.old memory.old) state.new memory.new frames.old frames.new }
{
    let n = samples.n;
    let rows = step_keys(state, samples, settings.noise_rate);
    let reads = BatchReads {
        registers: &state.registers,
        rows: &rows,
        memory,
        table: &state.table,
        clock: samples.clock,
    };
    play_voices(
        &mut state.hidden.voices,
        n,
        &reads,
        &settings.volumes,
        work,
        made,
    );
    play_echo(
        &mut state.hidden.echo,
        n,
        &settings.echo,
        &made.sums,
        memory,
        frames,
    );
    let endx = endx_of_batch(state.registers[ENDX], n, &rows, &made.rows.ends);
    put_all_levels(&mut state.registers, &made.last);
    state.registers[ENDX] = endx;
}
