// Each kind of call is noted by what it gave.
ghost use Rattle.std.specs.Prelude.{◌≡◌, ◌≤◌, ◌∷◌, length, IfOk};
ghost use Rattle.snd_host.specs.Calls.{open_call, read_call, create_call, write_call, finish_call};

use crate::{Failed, InFile, Log, Noted, OutFile};

/// Notes the opening of the input of this name.
pub fn note_open(log: &mut Log, name: &str, outcome: Result<InFile, Failed>)
    ensures { log.new.calls ≡ open_call (λ file. file.0) name.now outcome ∷ log.old.calls }
{
    match outcome {
        Ok(file) => log.note(Noted::Opened(name, file.0 as u64)),
        Err(_) => log.note(Noted::NotOpened(name)),
    }
}

/// Notes a read from the file of this number into a buffer with this room, which holds these bytes then.
pub fn note_read(
    log: &mut Log,
    number: u64,
    room: usize,
    buf: &[u8],
    outcome: Result<usize, Failed>,
)
    requires { IfOk outcome (λ count. count ≤ length buf.now) }
    ensures { log.new.calls ≡ read_call number room buf.now outcome ∷ log.old.calls }
{
    match outcome {
        Ok(count) => log.note(Noted::Read(number, room, &buf[..count])),
        Err(_) => log.note(Noted::NotRead(number, room)),
    }
}

/// Notes the creation of an output of this name.
pub fn note_create(log: &mut Log, name: &str, outcome: Result<OutFile, Failed>)
    ensures { log.new.calls ≡ create_call (λ file. file.0) name.now outcome ∷ log.old.calls }
{
    match outcome {
        Ok(file) => log.note(Noted::Created(name, file.0 as u64)),
        Err(_) => log.note(Noted::NotCreated(name)),
    }
}

/// Notes a write of this piece to the file of this number.
pub fn note_write(log: &mut Log, number: u64, piece: &[u8], outcome: Result<usize, Failed>)
    requires { IfOk outcome (λ count. count ≤ length piece.now) }
    ensures { log.new.calls ≡ write_call number piece.now outcome ∷ log.old.calls }
{
    match outcome {
        Ok(count) => log.note(Noted::Wrote(number, &piece[..count])),
        Err(_) => log.note(Noted::NotWritten(number, piece)),
    }
}

/// Notes the end of the output of this number.
pub fn note_finish(log: &mut Log, number: u64, outcome: Result<(), Failed>)
    ensures { log.new.calls ≡ finish_call number outcome ∷ log.old.calls }
{
    match outcome {
        Ok(()) => log.note(Noted::Finished(number)),
        Err(_) => log.note(Noted::NotFinished(number)),
    }
}
