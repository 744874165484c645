// A host in memory, and what a command left on it.
ghost use Rattle.std.specs.Prelude.{◌≡◌, [], IfOk};
ghost use Rattle.snd_host.specs.History.{ended_of};
ghost use Rattle.snd_host.specs.Memory.{memory_state};

use command_runner::{OutOfMemory, Refusal, complain};
use exit_status::{Cause, Status, status_for};
use snd_host::{MemHost, OutFile};
use std::alloc::Global;

/// The bytes of the first output that there is room for, but where a test says more.
pub const OUTPUT_ROOM: usize = 2000000;

/// A host with inputs of these names, whose calls of these numbers fail, and whose first output has this room. There is
/// room for a second output, too.
pub fn host_with(
    alloc: Global,
    inputs: &[(&str, &[u8])],
    failing: &[u32],
    room: usize,
) -> Result<MemHost, OutOfMemory>
    ensures { IfOk result (λ host. ended_of (memory_state host).calls ≡ []) }
{
    let mut files = Vec::new(alloc);
    for (name, bytes) in inputs {
        let name = String::from_str(alloc, name)?;
        files.push((name, Vec::from_slice(alloc, bytes)?))?;
    }
    let rooms = vec![in alloc; 2000, 100, room, 10000]?;
    MemHost::new(alloc, files, failing.to_vec(alloc)?, rooms)
}

/// How a command ended, with the host that keeps what was written.
#[derive(Drop)]
pub struct Outcome {
    status: Status,
    host: MemHost,
}

impl Outcome {
    /// The outcome of a command that ended so; its complaint is still to be written.
    pub fn of(refusal: Option<Refusal<Cause>>, mut host: MemHost) -> Outcome {
        complain(&mut host, refusal);
        Outcome {
            status: status_for(refusal),
            host,
        }
    }

    /// The outcome of a whole run.
    pub fn of_run(status: Status, host: MemHost) -> Outcome {
        Outcome { status, host }
    }

    pub fn status(&self) -> Status {
        self.status
    }

    pub fn report(&self) -> &[u8] {
        self.host.output(OutFile(0))
    }

    pub fn complaint(&self) -> &[u8] {
        self.host.output(OutFile(1))
    }

    /// The first output.
    pub fn first(&self) -> &[u8] {
        self.host.output(OutFile(2))
    }

    /// The second output.
    pub fn second(&self) -> &[u8] {
        self.host.output(OutFile(3))
    }

    /// The number of calls of the host.
    pub fn calls(&self) -> u32 {
        self.host.calls()
    }

    /// Whether all was done, with this first output and this report.
    pub fn is_done(&self, first: &[u8], report: &str) -> bool {
        self.status == Status::Ok
            && self.first() == first
            && self.report() == report.as_bytes()
            && self.complaint().is_empty()
    }

    /// Whether it ended so, with this complaint and nothing else.
    pub fn is_refused(&self, status: Status, complaint: &str) -> bool {
        self.status == status
            && self.complaint() == complaint.as_bytes()
            && self.report().is_empty()
            && self.first().is_empty()
            && self.second().is_empty()
    }

    /// Whether an input could not be read, and nothing but the complaint was written; `call` is the number of the call
    /// that failed, and all calls before it are on inputs, too.
    pub fn is_unread(&self, call: u32) -> bool {
        self.is_refused(Status::ReadFault, "spcwave: input could not be read\n")
            && self.calls() == call.wrapping_add(2)
    }

    /// Whether an output could not be written, and prefixes of these outputs and of this report stand; `call` is the number
    /// of the call that failed, and after it nothing but the complaint was written.
    pub fn is_cut_off(&self, call: u32, first: &[u8], second: &[u8], report: &str) -> bool {
        self.status == Status::WriteFault
            && self.calls() == call.wrapping_add(2)
            && self.complaint() == b"spcwave: output could not be written\n".as_slice()
            && first.starts_with(self.first())
            && second.starts_with(self.second())
            && report.as_bytes().starts_with(self.report())
    }
}
