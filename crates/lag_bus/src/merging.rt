// Brings records of voices and the events that waited for their samples into their order.
ghost use Rattle.std.specs.Prelude.{◌≡◌, ◌+◌, ◌≤◌, ◌++◌, [], length};
ghost use Rattle.lag_bus.specs.Merge.{events_up_to, events_after, merge};
ghost use Rattle.trace_form.specs.Capacities.{record_capacity};
ghost use Rattle.lock_step.specs.SampleNumbers.{sample_number};

use lock_step::sample_number;
use trace_form::{EventRing, Records};

/// Moves the events at the ring's front whose sample numbers are at most `upto`.
fn move_events_up_to(ring: &mut EventRing, upto: u32, records: &mut Records)
    requires { length records.old + length ring.old ≤ record_capacity }
    ensures ring { ring.new ≡ events_after upto ring.old }
    ensures records { records.new ≡ records.old ++ events_up_to upto ring.old }
    ensures all { length records.new + length ring.new ≡ length records.old + length ring.old }
{
    'events: while let Some(event) = ring.front() {
        if sample_number(event) > upto {
            break;
        }
        let _ = ring.pop_front();
        records.push(event);
    }
}

/// Moves all events of the ring.
fn move_all(ring: &mut EventRing, records: &mut Records)
    requires { length records.old + length ring.old ≤ record_capacity }
    ensures ring { ring.new ≡ [] }
    ensures records { records.new ≡ records.old ++ ring.old }
{
    'events: while let Some(event) = ring.pop_front() {
        records.push(event);
    }
}

/// Adds records of voices and all events of the ring, each event before the voices of its sample number.
pub fn merge_into(voices: &Records, ring: &mut EventRing, records: &mut Records)
    requires { length records.old + length ring.old + length voices.now ≤ record_capacity }
    ensures ring { ring.new ≡ [] }
    ensures records { records.new ≡ records.old ++ merge voices.now ring.old }
{
    let all = voices.as_slice();
    'voices: for voice in all {
        move_events_up_to(ring, sample_number(*voice), records);
        records.push(*voice);
    }
    move_all(ring, records);
}
