// The host of real files: it shows no contents, and passes on what a file knows of its bytes.
ghost use Rattle.std.specs.Prelude.{◌≡◌, ◌≢◌, ◌<◌, ℕ, ◌≤◌, ◌∷◌, ◌-◌, length, drop, IfOk, None, Some, [], false, is_ok, slice_get, slice_set};
ghost use Rattle.std.specs.Option.{option_map};
ghost use Rattle.snd_host.specs.Calls.{open_call, read_call, create_call, write_call, finish_call};
ghost use Rattle.snd_host.specs.History.{current_of, ended_of, in_faults as inputs_failed, note_faults as notes_failed, out_faults as outputs_failed};
ghost use Rattle.disk_host.specs.Created.{flags_of, known_or, known_at};
ghost use Rattle.std.specs.Io.KnownBytes.{Keeps, ReadConsumes, WriteAppends};

use crate::Disk;
use arrayvec::ArrayVec;
use snd_host::{
    Failed, Host, InFile, Log, OutFile, note_create, note_finish, note_open, note_read, note_write,
};

/// How many outputs a host of real files can create: a tune has 256 samples at most, and a rip makes a file of each.
const MAX_CREATED: usize = 256;

/// An output that was created.
#[derive(Drop)]
struct Created<F> {
    file: F,
    ended: bool,
}

/// The created outputs, each at its place.
type Places<F> = ArrayVec<Option<Created<F>>, MAX_CREATED>;

/// What a host keeps of its calls, and all calls that were made: the current input with its number, the outputs that were created,
/// and how many calls on inputs, writes to the complaint and calls on outputs failed. It is what the calls come to.
#[derive(Drop)]
struct Kept<F> {
    input: Option<F>,
    newest: u32,
    created: Places<F>,
    in_faults: u64,
    note_faults: u64,
    out_faults: u64,
    log: Log,
    ghost current_is: { current_of log.calls ≡ option_map (λ _. newest) input },
    ghost ended_is: { ended_of log.calls ≡ flags_of created.items },
    ghost in_faults_is: { inputs_failed log.calls ≡ in_faults },
    ghost note_faults_is: { notes_failed log.calls ≡ note_faults },
    ghost out_faults_is: { outputs_failed log.calls ≡ out_faults },
}

/// A host over a disk. It asks the disk once in each call, and fails where the disk does.
#[derive(Drop)]
pub struct DiskHost<D: Disk + Drop> {
    disk: D,
    kept: Kept<D::File>,
}

impl<D: Disk + Drop> DiskHost<D> {
    ghost use Rattle.disk_host.specs.Held.{disk_of, held_by};

    /// A host of which no call was made, and which has asked the disk of nothing.
    pub fn new(disk: D) -> Self
        ensures state { ⟦<DiskHost<D> as Host>⟧.state result ≡ record { calls = []; holds = None; steady = None } }
        ensures disk { disk_of result ≡ disk }
        ensures report { held_by D.held D.texts result 0 ≡ (D.texts disk).report }
        ensures complaint { held_by D.held D.texts result 1 ≡ (D.texts disk).complaint }
    {
        DiskHost {
            disk,
            kept: Kept {
                input: None,
                newest: 0,
                created: ArrayVec::new(),
                in_faults: 0,
                note_faults: 0,
                out_faults: 0,
                log: Log::none(),
            },
        }
    }
}

/// One write to a created output.
fn write_created<D: Disk>(
    disk: &mut D,
    created: &mut Places<D::File>,
    place: usize,
    piece: &[u8],
) -> Result<usize, Failed>
    requires { slice_get (flags_of created.old.items) place ≡ Some false }
    ensures within { IfOk result (λ count. count ≤ length piece.now) }
    ensures progress { IfOk result (λ count. 0 < length piece.now → 0 < count) }
    ensures flags { flags_of created.new.items ≡ flags_of created.old.items }
    ensures bytes { WriteAppends (known_at D.held None created.old.items place) (known_at D.held None created.new.items place) result piece.now }
    ensures others { (other : ℕ) → other ≢ place → known_at D.held None created.new.items other ≡ known_at D.held None created.old.items other }
    ensures files { (other : ℕ) → known_at D.number 0 created.new.items other ≡ known_at D.number 0 created.old.items other }
    ensures asked { D.calls disk.new ≡ write_call (known_at D.number 0 created.old.items place) piece.now result ∷ D.calls disk.old }
    ensures texts { D.texts disk.new ≡ D.texts disk.old }
{
    let Some(slot) = created.get_mut(place) else {
        unreachable!()
    };
    let Some(mut output) = slot.take() else {
        unreachable!()
    };
    let outcome = disk.write(&mut output.file, piece);
    *slot = Some(output);
    outcome
}

/// Flushes the file of an output, which is ended where that succeeds.
fn flush_output<D: Disk>(disk: &mut D, output: &mut Created<D::File>) -> Result<(), Failed>
    ensures ended { output.new.ended ≡ is_ok result }
    ensures bytes { Keeps (D.held output.old.file) (D.held output.new.file) }
    ensures file { D.number output.new.file ≡ D.number output.old.file }
    ensures asked { D.calls disk.new ≡ finish_call (D.number output.old.file) result ∷ D.calls disk.old }
    ensures texts { D.texts disk.new ≡ D.texts disk.old }
{
    let outcome = disk.flush(&mut output.file);
    output.ended = outcome.is_ok();
    outcome
}

/// Ends a created output.
fn end_created<D: Disk>(
    disk: &mut D,
    created: &mut Places<D::File>,
    place: usize,
) -> Result<(), Failed>
    requires { slice_get (flags_of created.old.items) place ≡ Some false }
    ensures flags { flags_of created.new.items ≡ slice_set (flags_of created.old.items) place (is_ok result) }
    ensures bytes { (other : ℕ) → Keeps (known_at D.held None created.old.items other) (known_at D.held None created.new.items other) }
    ensures files { (other : ℕ) → known_at D.number 0 created.new.items other ≡ known_at D.number 0 created.old.items other }
    ensures asked { D.calls disk.new ≡ finish_call (known_at D.number 0 created.old.items place) result ∷ D.calls disk.old }
    ensures texts { D.texts disk.new ≡ D.texts disk.old }
{
    let Some(slot) = created.get_mut(place) else {
        unreachable!()
    };
    let Some(mut output) = slot.take() else {
        unreachable!()
    };
    let outcome = flush_output(disk, &mut output);
    *slot = Some(output);
    outcome
}

impl<F: Drop> Kept<F> {
    ghost use Rattle.std.specs.Prelude.{◌++◌};
    ghost use Rattle.snd_host.specs.Calls.{opened, not_opened, created, not_created};
    ghost use Rattle.disk_host.specs.Created.{max_created};

    /// Makes a file that was opened the current input. The one before it is closed.
    fn take_input(&mut self, name: &str, file: F) -> InFile
        ensures calls { self.new.log.calls ≡ opened name.now result.0 ∷ self.old.log.calls }
        ensures fresh { current_of self.old.log.calls ≢ Some result.0 }
        ensures input { self.new.input ≡ Some file }
        ensures created { self.new.created.items ≡ self.old.created.items }
    {
        self.newest = self.newest.wrapping_add(1);
        self.input = Some(file);
        note_open(&mut self.log, name, Ok(InFile(self.newest)));
        InFile(self.newest)
    }

    /// No input is current, since none could be opened.
    fn refuse_input(&mut self, name: &str)
        ensures calls { self.new.log.calls ≡ not_opened name.now ∷ self.old.log.calls }
        ensures input { self.new.input ≡ None }
        ensures created { self.new.created.items ≡ self.old.created.items }
    {
        self.input = None;
        note_open(&mut self.log, name, Err(Failed));
        self.in_faults = self.in_faults.saturating_add(1);
    }

    /// Adds an output that was created, with its number.
    fn take_output(&mut self, name: &str, number: u32, file: F)
        requires { length self.old.created.items < max_created }
        ensures created { self.new.created.items ≡ self.old.created.items ++ Some (record { file = file; ended = false }) ∷ [] }
        ensures calls { self.new.log.calls ≡ created name.now number ∷ self.old.log.calls }
        ensures input { self.new.input ≡ self.old.input }
    {
        self.created.push(Some(Created { file, ended: false }));
        note_create(&mut self.log, name, Ok(OutFile(number)));
    }

    /// No output is added, since none could be created.
    fn refuse_output(&mut self, name: &str)
        ensures calls { self.new.log.calls ≡ not_created name.now ∷ self.old.log.calls }
        ensures input { self.new.input ≡ self.old.input }
        ensures created { self.new.created.items ≡ self.old.created.items }
    {
        note_create(&mut self.log, name, Err(Failed));
        self.out_faults = self.out_faults.saturating_add(1);
    }

    /// Notes a write to the report or to the complaint, and counts it where it failed: one to the complaint among its own.
    fn count_write(&mut self, number: u32, piece: &[u8], outcome: Result<usize, Failed>)
        requires { IfOk outcome (λ count. count ≤ length piece.now) }
        ensures calls { self.new.log.calls ≡ write_call number piece.now outcome ∷ self.old.log.calls }
        ensures input { self.new.input ≡ self.old.input }
        ensures created { self.new.created.items ≡ self.old.created.items }
    {
        let Ok(count) = outcome else {
            note_write(&mut self.log, number as u64, piece, Err(Failed));
            if number == 1 {
                self.note_faults = self.note_faults.saturating_add(1);
            } else {
                self.out_faults = self.out_faults.saturating_add(1);
            }
            return;
        };
        note_write(&mut self.log, number as u64, piece, Ok(count));
    }
}

/// Reads from the current input, and notes it.
fn read_input<D: Disk>(
    disk: &mut D,
    kept: &mut Kept<D::File>,
    number: u32,
    buf: &mut [u8],
) -> Result<usize, Failed>
    requires { current_of kept.old.log.calls ≡ Some number }
    ensures within { IfOk result (λ count. count ≤ length buf.old) }
    ensures after { IfOk result (λ count. drop count buf.new ≡ drop count buf.old) }
    ensures calls { kept.new.log.calls ≡ read_call number (length buf.old) buf.new result ∷ kept.old.log.calls }
    ensures bytes { ReadConsumes (known_or D.left None kept.old.input) (known_or D.left None kept.new.input) result buf.new }
    ensures file { known_or D.number 0 kept.new.input ≡ known_or D.number 0 kept.old.input }
    ensures created { kept.new.created.items ≡ kept.old.created.items }
    ensures asked { D.calls disk.new ≡ read_call (known_or D.number 0 kept.old.input) (length buf.old) buf.new result ∷ D.calls disk.old }
    ensures texts { D.texts disk.new ≡ D.texts disk.old }
{
    let room = buf.len();
    let Some(input) = &mut kept.input else {
        unreachable!()
    };
    if let Ok(count) = disk.read(input, buf) {
        note_read(&mut kept.log, number as u64, room, buf, Ok(count));
        return Ok(count);
    }
    note_read(&mut kept.log, number as u64, room, buf, Err(Failed));
    kept.in_faults = kept.in_faults.saturating_add(1);
    Err(Failed)
}

/// Writes to the created output of this number, and notes it.
fn write_output<D: Disk>(
    disk: &mut D,
    kept: &mut Kept<D::File>,
    number: u32,
    piece: &[u8],
) -> Result<usize, Failed>
    requires created { 2 ≤ number }
    requires open_yet { slice_get (flags_of kept.old.created.items) (number - 2) ≡ Some false }
    ensures within { IfOk result (λ count. count ≤ length piece.now) }
    ensures progress { IfOk result (λ count. 0 < length piece.now → 0 < count) }
    ensures calls { kept.new.log.calls ≡ write_call number piece.now result ∷ kept.old.log.calls }
    ensures input { kept.new.input ≡ kept.old.input }
    ensures bytes { WriteAppends (known_at D.held None kept.old.created.items (number - 2))
        (known_at D.held None kept.new.created.items (number - 2)) result piece.now }
    ensures others { (other : ℕ) → other ≢ number - 2 → known_at D.held None kept.new.created.items other ≡ known_at D.held None kept.old.created.items other }
    ensures files { (other : ℕ) → known_at D.number 0 kept.new.created.items other ≡ known_at D.number 0 kept.old.created.items other }
    ensures asked { D.calls disk.new ≡ write_call (known_at D.number 0 kept.old.created.items (number - 2)) piece.now result ∷ D.calls disk.old }
    ensures texts { D.texts disk.new ≡ D.texts disk.old }
{
    let place = (number - 2) as usize;
    if let Ok(count) = write_created(disk, &mut kept.created, place, piece) {
        note_write(&mut kept.log, number as u64, piece, Ok(count));
        return Ok(count);
    }
    note_write(&mut kept.log, number as u64, piece, Err(Failed));
    kept.out_faults = kept.out_faults.saturating_add(1);
    Err(Failed)
}

/// Ends the created output of this number, and notes it.
fn end_output<D: Disk>(disk: &mut D, kept: &mut Kept<D::File>, number: u32) -> Result<(), Failed>
    requires created { 2 ≤ number }
    requires open_yet { slice_get (flags_of kept.old.created.items) (number - 2) ≡ Some false }
    ensures flags { flags_of kept.new.created.items ≡ slice_set (flags_of kept.old.created.items) (number - 2) (is_ok result) }
    ensures calls { kept.new.log.calls ≡ finish_call number result ∷ kept.old.log.calls }
    ensures input { kept.new.input ≡ kept.old.input }
    ensures bytes { (other : ℕ) → Keeps (known_at D.held None kept.old.created.items other) (known_at D.held None kept.new.created.items other) }
    ensures files { (other : ℕ) → known_at D.number 0 kept.new.created.items other ≡ known_at D.number 0 kept.old.created.items other }
    ensures asked { D.calls disk.new ≡ finish_call (known_at D.number 0 kept.old.created.items (number - 2)) result ∷ D.calls disk.old }
    ensures texts { D.texts disk.new ≡ D.texts disk.old }
{
    if end_created(disk, &mut kept.created, (number - 2) as usize).is_ok() {
        note_finish(&mut kept.log, number as u64, Ok(()));
        return Ok(());
    }
    note_finish(&mut kept.log, number as u64, Err(Failed));
    kept.out_faults = kept.out_faults.saturating_add(1);
    Err(Failed)
}

impl<D: Disk + Drop> Host for DiskHost<D> {
    ghost use Rattle.std.specs.Prelude.{◌+◌};
    ghost use Rattle.snd_host.specs.Follows.{Makes};
    ghost use Rattle.snd_host.specs.Host.{IsOpen, max_outputs};
    ghost use Rattle.disk_host.specs.Created.{max_created};
    ghost use Rattle.disk_host.specs.Held.{disk_state, input_number, output_number, KeepsInput, KeepsOutputs, KeepsOutputsBut, AsksOnce, FailsUnasked, ReadsOn, WritesOn, HoldsStay, InputStays};

    ghost state = { disk_state };

    fn open_in(&mut self, name: &str) -> Result<InFile, Failed>
        ensures fresh { IfOk result (λ file. current_of (disk_state self.old).calls ≢ Some file.0) }
        ensures made { Makes (open_call (λ file. file.0) name.now result) (disk_state self.old) (disk_state self.new) }
        // No output changes.
        ensures held { HoldsStay D.held D.texts self.old self.new }
        // It opens the file of this name, and the current input is then the file that this call of the disk made.
        ensures asked { AsksOnce D.calls (open_call (λ _. input_number D.number self.new) name.now result) self.old self.new }
        ensures outputs { KeepsOutputs D.number self.old self.new }
    {
        let Ok(file) = self.disk.open(name) else {
            self.kept.refuse_input(name);
            return Err(Failed);
        };
        Ok(self.kept.take_input(name, file))
    }

    fn read(&mut self, file: InFile, buf: &mut [u8]) -> Result<usize, Failed>
        requires { current_of (disk_state self.old).calls ≡ Some file.0 }
        ensures within { IfOk result (λ count. count ≤ length buf.old) }
        ensures after { IfOk result (λ count. drop count buf.new ≡ drop count buf.old) }
        ensures made { Makes (read_call file.0 (length buf.old) buf.new result) (disk_state self.old) (disk_state self.new) }
        // Where the file knows its bytes, these are the next ones, and none come only at its end.
        ensures bytes { ReadsOn D.left buf.new self.old self.new result }
        ensures held { HoldsStay D.held D.texts self.old self.new }
        // It reads from the file that is the current input, which stays that one.
        ensures asked { AsksOnce D.calls (read_call (input_number D.number self.old) (length buf.old) buf.new result) self.old self.new }
        ensures same_input { KeepsInput D.number self.old self.new }
        ensures outputs { KeepsOutputs D.number self.old self.new }
    {
        read_input(&mut self.disk, &mut self.kept, file.0, buf)
    }

    fn create(&mut self, name: &str) -> Result<OutFile, Failed>
        requires { length (ended_of (disk_state self.old).calls) < max_outputs }
        ensures number { IfOk result (λ file. file.0 ≡ length (ended_of (disk_state self.old).calls) + 2) }
        ensures made { Makes (create_call (λ file. file.0) name.now result) (disk_state self.old) (disk_state self.new) }
        // No output changes.
        ensures held { HoldsStay D.held D.texts self.old self.new }
        // Nothing of the current input is eaten.
        ensures input { InputStays D.left self.old self.new }
        // It creates the file of this name, and the output of the new number is then the file that this call of the disk made.
        ensures asked { length (ended_of (disk_state self.old).calls) < max_created → AsksOnce D.calls
            (create_call (λ file. output_number D.number self.new file.0) name.now result) self.old self.new }
        // Once so many outputs were created, it fails without asking the disk.
        ensures no_place { max_created ≤ length (ended_of (disk_state self.old).calls) → FailsUnasked D.calls self.old self.new result }
        ensures same_input { KeepsInput D.number self.old self.new }
        ensures outputs { KeepsOutputsBut (length (ended_of (disk_state self.old).calls) + 2) D.number self.old self.new }
    {
        let number = self.kept.created.len() as u32 + 2;
        if self.kept.created.is_full() {
            self.kept.refuse_output(name);
            return Err(Failed);
        }
        let Ok(file) = self.disk.create(name) else {
            self.kept.refuse_output(name);
            return Err(Failed);
        };
        self.kept.take_output(name, number, file);
        Ok(OutFile(number))
    }

    fn write(&mut self, file: OutFile, piece: &[u8]) -> Result<usize, Failed>
        requires { IsOpen (ended_of (disk_state self.old).calls) file.0 }
        ensures within { IfOk result (λ count. count ≤ length piece.now) }
        ensures progress { IfOk result (λ count. 0 < length piece.now → 0 < count) }
        ensures made { Makes (write_call file.0 piece.now result) (disk_state self.old) (disk_state self.new) }
        // Where the output knows its bytes, those taken come after them, and no other output changes.
        ensures bytes { WritesOn D.held D.texts file.0 piece.now self.old self.new result }
        // Nothing of the current input is eaten.
        ensures input { InputStays D.left self.old self.new }
        // It writes this piece to the file that is the output of this number, and each number keeps its file.
        ensures asked { AsksOnce D.calls (write_call (output_number D.number self.old file.0) piece.now result) self.old self.new }
        ensures same_input { KeepsInput D.number self.old self.new }
        ensures outputs { KeepsOutputs D.number self.old self.new }
    {
        if file.0 == 1 {
            let outcome = self.disk.complain(piece);
            self.kept.count_write(1, piece, outcome);
            return outcome;
        }
        if file.0 == 0 {
            let outcome = self.disk.report(piece);
            self.kept.count_write(0, piece, outcome);
            return outcome;
        }
        write_output(&mut self.disk, &mut self.kept, file.0, piece)
    }

    fn finish(&mut self, file: OutFile) -> Result<(), Failed>
        requires created { 2 ≤ file.0 }
        requires open_yet { slice_get (ended_of (disk_state self.old).calls) (file.0 - 2) ≡ Some false }
        ensures made { Makes (finish_call file.0 result) (disk_state self.old) (disk_state self.new) }
        // No output changes.
        ensures held { HoldsStay D.held D.texts self.old self.new }
        // Nothing of the current input is eaten.
        ensures input { InputStays D.left self.old self.new }
        // It flushes the file that is the output of this number, and each number keeps its file.
        ensures asked { AsksOnce D.calls (finish_call (output_number D.number self.old file.0) result) self.old self.new }
        ensures same_input { KeepsInput D.number self.old self.new }
        ensures outputs { KeepsOutputs D.number self.old self.new }
    {
        end_output(&mut self.disk, &mut self.kept, file.0)
    }
}
