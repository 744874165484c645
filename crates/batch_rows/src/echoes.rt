//! The echo of a batch, over its rows of sums.

ghost use Rattle.std.specs.Prelude.{◌≤◌, ◌+◌, length};
ghost use Rattle.trace_form.specs.Capacities.{frame_capacity};
ghost use Rattle.echo_unit.specs.EchoOverBatch.{echo_over_sums};
ghost use Rattle.chip_form.specs.Limits.{max_samples_of_batch};
ghost use Rattle.batch_rows.specs.AddsEcho.{AddsEcho};

use aram_core::Aram;
use echo_unit::{Echo, EchoRegs, SumRows};
use trace_form::Frames;

/// Makes n steps of the echo over the sums of a batch, and adds their frames.
pub fn play_echo(
    echo: &mut Echo,
    n: u8,
    regs: &EchoRegs,
    sums: &SumRows,
    memory: &mut Aram,
    frames: &mut Frames,
)
    requires few { n ≤ max_samples_of_batch }
    requires frame_capacity { length frames.old + n ≤ frame_capacity }
    ensures { AddsEcho (echo_over_sums regs.now sums.now echo.old memory.old n) echo.new memory.new frames.old frames.new }
{
    let row = echo.play(n, regs, sums, memory);
    frames.extend(&row[..usize::from(n)]);
}
