//! The records of one sample.

ghost use Rattle.std.specs.Prelude.{◌≡◌, ◌≤◌, ◌<◌, ◌+◌, ◌++◌, ◌∷◌, [], length};
ghost use Rattle.std.specs.List.{filter};
ghost use Rattle.trace_form.specs.Capacities.{record_capacity};
ghost use Rattle.chip_form.specs.Samples.{in_mask};
ghost use Rattle.dsp_state.specs.Sample.{records_from};

use num_fix::has_bit;
use trace_form::{Record, Records};
use voice_unit::VoiceOut;

/// Adds the record of voice `v`, where its bit is in the mask.
fn push_record(records: &mut Records, mask: u8, sample: u32, v: u8, answer: &VoiceOut)
    requires room { length records.old < record_capacity }
    requires v { v < 8 }
    ensures records { records.new ≡ records.old ++ filter (in_mask mask) (records_from sample v (answer.now ∷ [])) }
    ensures count { length records.new ≤ length records.old + 1 }
{
    if has_bit(mask, v) {
        records.push(Record::Voice {
            sample,
            voice: v,
            level: answer.level,
            out: answer.out,
            block: answer.block,
            keyed: answer.keyed,
            ended: answer.ended,
        });
    }
}

/// Adds the records of the voices in the mask, in the order of the voices.
pub fn push_records(records: &mut Records, mask: u8, sample: u32, answers: &[VoiceOut; 8])
    requires { length records.old + 8 ≤ record_capacity }
    ensures records { records.new ≡ records.old ++ filter (in_mask mask) (records_from sample 0 answers.now) }
    ensures count { length records.new ≤ length records.old + 8 }
{
    if mask == 0 {
        return;
    }
    for v in 0..8u8 {
        push_record(records, mask, sample, v, &answers[usize::from(v)]);
    }
}
