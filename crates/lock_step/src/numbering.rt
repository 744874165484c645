// The sample numbers of records.
ghost use Rattle.std.specs.Prelude.{◌≡◌};
ghost use Rattle.lock_step.specs.SampleNumbers.{sample_number};

use trace_form::Record;

/// The sample number of a record: the number of samples made before a write, or of a voice its sample's own.
pub fn sample_number(item: Record) -> u32
    ensures { result ≡ sample_number item }
{
    match item {
        Record::Reg { sample, .. } => sample,
        Record::Port { sample, .. } => sample,
        Record::Voice { sample, .. } => sample,
    }
}
