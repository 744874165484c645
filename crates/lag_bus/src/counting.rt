// How often a bus that lags let its chip run.
ghost use Rattle.std.specs.Prelude.{◌≡◌};
ghost use Rattle.lag_bus.specs.Book.{no_counts, counts_with_batch};

use crate::cause::Cause;
use lock_step::Counts;

/// Nothing counted.
pub(crate) fn no_counts() -> Counts
    ensures { result ≡ no_counts }
{
    Counts {
        batches: 0,
        register: 0,
        memory: 0,
        echo: 0,
        full: 0,
        events: 0,
        end: 0,
    }
}

/// The counts with one more batch, for a cause.
pub(crate) fn counts_with_batch(cause: Cause, before: Counts) -> Counts
    ensures { result ≡ counts_with_batch cause before }
{
    let mut counts = before;
    counts.batches = counts.batches.saturating_add(1);
    match cause {
        Cause::Register => counts.register = counts.register.saturating_add(1),
        Cause::Memory => counts.memory = counts.memory.saturating_add(1),
        Cause::Echo => counts.echo = counts.echo.saturating_add(1),
        Cause::Full => counts.full = counts.full.saturating_add(1),
        Cause::Events => counts.events = counts.events.saturating_add(1),
        Cause::End => counts.end = counts.end.saturating_add(1),
    }
    counts
}
