// A host in memory that gives and takes one byte at a time.
ghost use Rattle.std.specs.Prelude.{◌≡◌, ◌≤◌};
ghost use Rattle.snd_host.specs.History.{current_of, ended_of, given_of, in_faults, left_of, note_faults, out_faults};
ghost use Rattle.snd_host.specs.Memory.{memory_state, names_of};

use crate::{
    Failed, Host, InFile, Log, MemHost, OutFile, note_create, note_finish, note_open, note_read,
    note_write,
};

/// A host in memory whose reads give at most one byte, and whose writes take at most one.
///
/// Its calls are those of the host inside, up to then, and after them those that were made of it. Those of the host inside come to
/// the same: the same input is current, the same outputs were ended and given the same bytes, the same is left to be read, and as
/// many calls of each kind failed.
#[derive(Drop)]
pub struct DripHost {
    host: MemHost,
    log: Log,
    ghost current_is: { current_of log.calls ≡ current_of (memory_state host).calls },
    ghost ended_is: { ended_of log.calls ≡ ended_of (memory_state host).calls },
    ghost left_is: { left_of (names_of host) log.calls ≡ left_of (names_of host) (memory_state host).calls },
    ghost given_is: { given_of log.calls ≡ given_of (memory_state host).calls },
    ghost in_faults_are: { in_faults log.calls ≡ in_faults (memory_state host).calls },
    ghost note_faults_are: { note_faults log.calls ≡ note_faults (memory_state host).calls },
    ghost out_faults_are: { out_faults log.calls ≡ out_faults (memory_state host).calls },
}

impl DripHost {
    ghost use Rattle.snd_host.specs.Drip.{drip_state, inside};

    /// This host, one byte at a time.
    pub fn new(host: MemHost) -> DripHost
        ensures state { drip_state result ≡ memory_state host }
        ensures inside { inside result ≡ host }
    {
        let log = host.calls_made();
        DripHost { host, log }
    }

    /// The host inside.
    pub fn inner(&self) -> &MemHost
        ensures host { result.now ≡ inside self.now }
        ensures given { given_of (memory_state result.now).calls ≡ given_of (drip_state self.now).calls }
        ensures in_faults { in_faults (memory_state result.now).calls ≡ in_faults (drip_state self.now).calls }
        ensures note_faults { note_faults (memory_state result.now).calls ≡ note_faults (drip_state self.now).calls }
        ensures out_faults { out_faults (memory_state result.now).calls ≡ out_faults (drip_state self.now).calls }
    {
        &self.host
    }
}

// The clauses of each call are the trait's, and then that the host inside counts it as one call; of `read` and `write`, that
// they move at most one byte.
impl Host for DripHost {
    ghost use Rattle.std.specs.Prelude.{◌≢◌, ◌-◌, ◌+◌, ◌<◌, false, length, drop, Some, IfOk, slice_get};
    ghost use Rattle.snd_host.specs.Calls.{open_call, read_call, create_call, write_call, finish_call};
    ghost use Rattle.snd_host.specs.Drip.{drip_state, inside};
    ghost use Rattle.snd_host.specs.Follows.{Makes};
    ghost use Rattle.snd_host.specs.Host.{IsOpen, max_outputs};
    ghost use Rattle.snd_host.specs.Memory.{CountsCall};

    ghost state = { drip_state };

    fn open_in(&mut self, name: &str) -> Result<InFile, Failed>
        ensures fresh { IfOk result (λ file. current_of (drip_state self.old).calls ≢ Some file.0) }
        ensures made { Makes (open_call (λ file. file.0) name.now result) (drip_state self.old) (drip_state self.new) }
        ensures counted { CountsCall (inside self.old) (inside self.new) }
    {
        let outcome = self.host.open_in(name);
        note_open(&mut self.log, name, outcome);
        outcome
    }

    fn read(&mut self, file: InFile, buf: &mut [u8]) -> Result<usize, Failed>
        requires { current_of (drip_state self.old).calls ≡ Some file.0 }
        ensures within { IfOk result (λ count. count ≤ length buf.old) }
        ensures after { IfOk result (λ count. drop count buf.new ≡ drop count buf.old) }
        ensures made { Makes (read_call file.0 (length buf.old) buf.new result) (drip_state self.old) (drip_state self.new) }
        ensures at_most_one { IfOk result (λ count. count ≤ 1) }
        ensures counted { CountsCall (inside self.old) (inside self.new) }
    {
        let room = buf.len();
        let most = room.min(1);
        let outcome = self.host.read(file, &mut buf[..most]);
        note_read(&mut self.log, file.0 as u64, room, buf, outcome);
        outcome
    }

    fn create(&mut self, name: &str) -> Result<OutFile, Failed>
        requires { length (ended_of (drip_state self.old).calls) < max_outputs }
        ensures number { IfOk result (λ file. file.0 ≡ length (ended_of (drip_state self.old).calls) + 2) }
        ensures made { Makes (create_call (λ file. file.0) name.now result) (drip_state self.old) (drip_state self.new) }
        ensures counted { CountsCall (inside self.old) (inside self.new) }
    {
        let outcome = self.host.create(name);
        note_create(&mut self.log, name, outcome);
        outcome
    }

    fn write(&mut self, file: OutFile, piece: &[u8]) -> Result<usize, Failed>
        requires { IsOpen (ended_of (drip_state self.old).calls) file.0 }
        ensures within { IfOk result (λ count. count ≤ length piece.now) }
        ensures progress { IfOk result (λ count. 0 < length piece.now → 0 < count) }
        ensures made { Makes (write_call file.0 piece.now result) (drip_state self.old) (drip_state self.new) }
        ensures at_most_one { IfOk result (λ count. count ≤ 1) }
        ensures counted { CountsCall (inside self.old) (inside self.new) }
    {
        let most = piece.len().min(1);
        let outcome = self.host.write(file, &piece[..most]);
        note_write(&mut self.log, file.0 as u64, piece, outcome);
        outcome
    }

    fn finish(&mut self, file: OutFile) -> Result<(), Failed>
        requires created { 2 ≤ file.0 }
        requires open_yet { slice_get (ended_of (drip_state self.old).calls) (file.0 - 2) ≡ Some false }
        ensures made { Makes (finish_call file.0 result) (drip_state self.old) (drip_state self.new) }
        ensures counted { CountsCall (inside self.old) (inside self.new) }
    {
        let outcome = self.host.finish(file);
        note_finish(&mut self.log, file.0 as u64, outcome);
        outcome
    }
}
