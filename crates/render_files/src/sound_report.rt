// What a render reports: its samples, and how often the chip ran for them, and why.
ghost use Rattle.std.specs.Prelude.{◌≡◌, ◌+◌, ◌≤◌, ◌++◌, length, decimal};
ghost use Rattle.render_files.specs.RenderReport.{batch_line, longest_batch_line, longest_sound_report, sound_report};
ghost use Rattle.report_text.specs.Capacity.{buffer_capacity};

use lock_step::Counts;
use report_text::{FixedBuffer, put_count};

/// Adds the line of these counts.
pub fn put_batches(report: &mut FixedBuffer, counts: Counts)
    requires { length report.old + longest_batch_line ≤ buffer_capacity }
    ensures { report.new ≡ report.old ++ batch_line counts }
{
    put_count(report, b"batches ", counts.batches);
    put_count(report, b" register ", counts.register);
    put_count(report, b" memory ", counts.memory);
    put_count(report, b" echo ", counts.echo);
    put_count(report, b" full ", counts.full);
    put_count(report, b" events ", counts.events);
    put_count(report, b" end ", counts.end);
    report.append(b"\n");
}

/// Adds the report on so many samples, made in batches of these counts.
pub fn put_sound_report(report: &mut FixedBuffer, samples: u32, counts: Counts)
    requires { length report.old + longest_sound_report ≤ buffer_capacity }
    ensures { report.new ≡ report.old ++ sound_report samples counts }
{
    put_count(report, b"samples ", u64::from(samples));
    report.append(b"\n");
    put_batches(report, counts);
}
