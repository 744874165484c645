// A host in memory, whose calls fail where a test wants it.
ghost use Rattle.std.specs.Prelude.{◌≡◌, ◌+◌, ◌≤◌, vec_len, vec_capacity, map};
ghost use Rattle.std.specs.VecDeque.{deque_len};
ghost use Rattle.snd_host.specs.Files.{content_of};
ghost use Rattle.snd_host.specs.History.{current_of, ended_of, given_of, left_of};
ghost use Rattle.snd_host.specs.Host.{longest_output_name};
ghost use Rattle.snd_host.specs.Parts.{left_by, number_of, output_of};

use crate::files::{bytes_of, copy_front, count_call, find_file};
use crate::host::LONGEST_OUTPUT_NAME;
use crate::outputs::{Places, Sink, Slot, Spare};
use crate::reading::Reading;
use crate::{
    Failed, Host, InFile, Log, OutFile, OutOfMemory, note_create, note_finish, note_open,
    note_read, note_write,
};
use std::alloc::Global;
use std::collections::VecDeque;

/// A host whose inputs and outputs are in memory. What they are is what its calls come to.
#[derive(Drop)]
pub struct MemHost {
    files: Vec<(String, Vec<u8>)>,
    failing: Vec<u32>,
    calls: u32,
    newest: u32,
    last: Option<Reading>,
    is_open: bool,
    report: Sink,
    complaint: Sink,
    created: Vec<Slot>,
    spare: VecDeque<Spare>,
    log: Log,
    ghost created_reserved: { vec_len created + deque_len spare ≤ vec_capacity created },
    ghost current_is: { current_of log.calls ≡ number_of is_open last newest },
    ghost ended_is: { ended_of log.calls ≡ map (λ slot. slot.ended) created.items },
    ghost left_is: { left_of (content_of files.items) log.calls ≡ left_by files.items last },
    ghost given_is: { given_of log.calls ≡ record { report = report.bytes.items; complaint = complaint.bytes.items; created = map output_of created.items } },
}

impl MemHost {
    ghost use Rattle.std.specs.Prelude.{List, ℕ, length, slice_get, slice_index, Some, None, false, IfOk};
    ghost use Rattle.snd_host.specs.Memory.{memory_state, rooms_of, calls_of, failing_of, opening_state, opening_rooms};
    ghost use Rattle.snd_host.specs.Host.{HostState, IsOpen, bytes_given};

    /// A host with these inputs, whose calls of these numbers fail, and which reserves these rooms.
    pub fn new(
        alloc: Global,
        files: Vec<(String, Vec<u8>)>,
        failing: Vec<u32>,
        rooms: Vec<usize>,
    ) -> Result<MemHost, OutOfMemory>
        ensures state { IfOk result (λ host. memory_state host ≡ opening_state files.items failing.items rooms.items) }
        ensures calls { IfOk result (λ host. calls_of host ≡ 0) }
        ensures failing { IfOk result (λ host. failing_of host ≡ failing.items) }
        ensures rooms { IfOk result (λ host. rooms_of host ≡ opening_rooms rooms.items) }
    {
        let Places {
            report,
            complaint,
            created,
            spare,
        } = Places::reserve(alloc, rooms.as_slice())?;
        Ok(MemHost {
            files,
            failing,
            calls: 0,
            newest: 0,
            last: None,
            is_open: false,
            report,
            complaint,
            created,
            spare,
            log: Log::none(),
        })
    }

    /// What an output was given: no bytes where it was not created.
    pub fn output(&self, file: OutFile) -> &[u8]
        ensures { result.now ≡ bytes_given (given_of (memory_state self.now).calls) file.0 }
    {
        match file.0 {
            0 => self.report.bytes.as_slice(),
            1 => self.complaint.bytes.as_slice(),
            number => match self.created.get((number - 2) as usize) {
                Some(slot) => slot.sink.bytes.as_slice(),
                None => &[],
            },
        }
    }

    /// The number of calls so far.
    pub fn calls(&self) -> u32
        ensures { result ≡ calls_of self.now }
    {
        self.calls
    }

    /// The calls that were made of it.
    pub(crate) fn calls_made(&self) -> Log
        ensures { result.calls ≡ (memory_state self.now).calls }
    {
        self.log.same()
    }

    /// How many bytes more this output takes.
    fn room(&self, number: u32) -> usize
        requires { IsOpen (ended_of (memory_state self.now).calls) number }
        ensures { result ≡ slice_index (rooms_of self.now) number }
    {
        match number {
            0 => self.report.room,
            1 => self.complaint.room,
            _ => {
                let slot = &self.created[(number - 2) as usize];
                slot.sink.room
            }
        }
    }
}

// The clauses of each call are the trait's, and then its own: exactly where it fails, that it is counted, and what it does
// to the rooms.
impl Host for MemHost {
    ghost use Rattle.std.specs.Prelude.{◌≢◌, ◌-◌, ◌<◌, ◌||◌, not, false, nat_lt, length, drop, Some, is_err, IfOk, OnErr, slice_get, slice_index};
    ghost use Rattle.snd_host.specs.Calls.{open_call, read_call, create_call, write_call, finish_call};
    ghost use Rattle.snd_host.specs.Follows.{Makes};
    ghost use Rattle.snd_host.specs.Host.{IsOpen, rooms_less, max_outputs};
    ghost use Rattle.snd_host.specs.Memory.{memory_state, rooms_of, is_listed, CountsCall, has_input, is_full};

    ghost state = { memory_state };

    fn open_in(&mut self, name: &str) -> Result<InFile, Failed>
        ensures fresh { IfOk result (λ file. current_of (memory_state self.old).calls ≢ Some file.0) }
        ensures made { Makes (open_call (λ file. file.0) name.now result) (memory_state self.old) (memory_state self.new) }
        // It fails exactly where its number is listed or no input has the name.
        ensures fails { is_err result ≡ (is_listed self.old || not (has_input self.old name.now)) }
        ensures counted { CountsCall self.old self.new }
        ensures rooms_kept { rooms_of self.new ≡ rooms_of self.old }
    {
        let fails = count_call(&mut self.calls, self.failing.as_slice());
        let found = find_file(self.files.as_slice(), name);
        self.is_open = false;
        if fails {
            note_open(&mut self.log, name, Err(Failed));
            return Err(Failed);
        }
        let Some(index) = found else {
            note_open(&mut self.log, name, Err(Failed));
            return Err(Failed);
        };
        self.newest = self.newest.wrapping_add(1);
        self.last = Some(Reading { index, at: 0 });
        self.is_open = true;
        note_open(&mut self.log, name, Ok(InFile(self.newest)));
        Ok(InFile(self.newest))
    }

    fn read(&mut self, file: InFile, buf: &mut [u8]) -> Result<usize, Failed>
        requires { current_of (memory_state self.old).calls ≡ Some file.0 }
        ensures within { IfOk result (λ count. count ≤ length buf.old) }
        ensures after { IfOk result (λ count. drop count buf.new ≡ drop count buf.old) }
        ensures made { Makes (read_call file.0 (length buf.old) buf.new result) (memory_state self.old) (memory_state self.new) }
        // It fails exactly where its number is listed.
        ensures fails { is_err result ≡ is_listed self.old }
        ensures counted { CountsCall self.old self.new }
        ensures rooms_kept { rooms_of self.new ≡ rooms_of self.old }
    {
        let fails = count_call(&mut self.calls, self.failing.as_slice());
        let Some(reading) = self.last else {
            unreachable!()
        };
        let room = buf.len();
        if fails {
            note_read(&mut self.log, file.0 as u64, room, buf, Err(Failed));
            return Err(Failed);
        }
        let bytes = bytes_of(self.files.as_slice(), reading.index);
        let at = reading.at.min(bytes.len());
        let count = copy_front(&bytes[at..], buf);
        self.last = Some(Reading {
            index: reading.index,
            at: reading.at + count,
        });
        note_read(&mut self.log, file.0 as u64, room, buf, Ok(count));
        Ok(count)
    }

    fn create(&mut self, name: &str) -> Result<OutFile, Failed>
        requires { length (ended_of (memory_state self.old).calls) < max_outputs }
        ensures number { IfOk result (λ file. file.0 ≡ length (ended_of (memory_state self.old).calls) + 2) }
        ensures made { Makes (create_call (λ file. file.0) name.now result) (memory_state self.old) (memory_state self.new) }
        // It fails exactly where its number is listed, no room is left or the name is too long.
        ensures fails { is_err result ≡ (is_listed self.old || is_full self.old || nat_lt longest_output_name (length name.now)) }
        ensures counted { CountsCall self.old self.new }
        ensures rooms_kept { rooms_of self.new ≡ rooms_of self.old }
    {
        let fails = count_call(&mut self.calls, self.failing.as_slice());
        if fails || name.len() > LONGEST_OUTPUT_NAME || self.spare.is_empty() {
            note_create(&mut self.log, name, Err(Failed));
            return Err(Failed);
        }
        let spare = self.spare.pop_front().unwrap();
        let number = self.created.len() as u32 + 2;
        self.created.push(spare.into_slot(name)).unwrap();
        note_create(&mut self.log, name, Ok(OutFile(number)));
        Ok(OutFile(number))
    }

    fn write(&mut self, file: OutFile, piece: &[u8]) -> Result<usize, Failed>
        requires { IsOpen (ended_of (memory_state self.old).calls) file.0 }
        ensures within { IfOk result (λ count. count ≤ length piece.now) }
        ensures progress { IfOk result (λ count. 0 < length piece.now → 0 < count) }
        ensures made { Makes (write_call file.0 piece.now result) (memory_state self.old) (memory_state self.new) }
        // It fails exactly where its number is listed or the piece is longer than the room.
        ensures fails { is_err result ≡
            (is_listed self.old || nat_lt (slice_index (rooms_of self.old) file.0) (length piece.now)) }
        ensures counted { CountsCall self.old self.new }
        ensures rooms_less { IfOk result (λ count. rooms_of self.new ≡ rooms_less (rooms_of self.old) file.0 count) }
        ensures rooms_kept { OnErr result (rooms_of self.new ≡ rooms_of self.old) }
    {
        let fails = count_call(&mut self.calls, self.failing.as_slice());
        let room = self.room(file.0);
        if fails || room < piece.len() {
            note_write(&mut self.log, file.0 as u64, piece, Err(Failed));
            return Err(Failed);
        }
        note_write(&mut self.log, file.0 as u64, piece, Ok(piece.len()));
        match file.0 {
            0 => self.report.put(piece),
            1 => self.complaint.put(piece),
            number => {
                let slot = &mut self.created[(number - 2) as usize];
                slot.sink.put(piece);
            }
        }
        Ok(piece.len())
    }

    fn finish(&mut self, file: OutFile) -> Result<(), Failed>
        requires created { 2 ≤ file.0 }
        requires open_yet { slice_get (ended_of (memory_state self.old).calls) (file.0 - 2) ≡ Some false }
        ensures made { Makes (finish_call file.0 result) (memory_state self.old) (memory_state self.new) }
        // It fails exactly where its number is listed.
        ensures fails { is_err result ≡ is_listed self.old }
        ensures counted { CountsCall self.old self.new }
        ensures rooms_kept { rooms_of self.new ≡ rooms_of self.old }
    {
        let fails = count_call(&mut self.calls, self.failing.as_slice());
        if fails {
            note_finish(&mut self.log, file.0 as u64, Err(Failed));
            return Err(Failed);
        }
        note_finish(&mut self.log, file.0 as u64, Ok(()));
        let slot = &mut self.created[(file.0 - 2) as usize];
        slot.ended = true;
        Ok(())
    }
}
