// The outputs of a host in memory.
ghost use Rattle.std.specs.Prelude.{◌≡◌, ◌+◌, ◌≤◌, vec_len, vec_capacity, string_bytes, string_capacity, []};
ghost use Rattle.std.specs.VecDeque.{deque_len};
ghost use Rattle.snd_host.specs.Host.{longest_output_name};

use crate::OutOfMemory;
use crate::host::LONGEST_OUTPUT_NAME;
use std::alloc::Global;
use std::collections::VecDeque;

/// Bytes that were written, and how many more there is room for.
#[derive(Drop)]
pub(crate) struct Sink {
    pub(crate) bytes: Vec<u8>,
    pub(crate) room: usize,
    ghost reserved: { vec_len bytes + room ≤ vec_capacity bytes },
}

/// A created output.
#[derive(Drop)]
pub(crate) struct Slot {
    pub(crate) name: String,
    pub(crate) sink: Sink,
    pub(crate) ended: bool,
}

/// The room of an output that is not yet created.
#[derive(Drop)]
pub(crate) struct Spare {
    pub(crate) name: String,
    pub(crate) bytes: Vec<u8>,
    pub(crate) room: usize,
    ghost unnamed: { string_bytes name ≡ [] },
    ghost name_room: { longest_output_name ≤ string_capacity name },
    ghost empty: { bytes.items ≡ [] },
    ghost room_reserved: { room ≤ vec_capacity bytes },
}

/// The places that a host begins to write in: those of the report and of the complaint, and those of outputs still to be created.
#[derive(Drop)]
pub(crate) struct Places {
    pub(crate) report: Sink,
    pub(crate) complaint: Sink,
    pub(crate) created: Vec<Slot>,
    pub(crate) spare: VecDeque<Spare>,
    ghost created_reserved: { vec_len created + deque_len spare ≤ vec_capacity created },
}

impl Sink {
    ghost use Rattle.std.specs.Prelude.{◌++◌, ◌-◌, length, IfOk};

    /// No bytes, with this room.
    pub(crate) fn reserve(alloc: Global, room: usize) -> Result<Sink, OutOfMemory>
        ensures empty { IfOk result (λ sink. sink.bytes.items ≡ []) }
        ensures room { IfOk result (λ sink. sink.room ≡ room) }
    {
        Ok(Sink {
            bytes: Vec::with_capacity(alloc, room)?,
            room,
        })
    }

    /// Adds bytes that fit.
    pub(crate) fn put(&mut self, piece: &[u8])
        requires { length piece.now ≤ self.old.room }
        ensures bytes { self.new.bytes.items ≡ self.old.bytes.items ++ piece.now }
        ensures room { self.new.room ≡ self.old.room - length piece.now }
    {
        self.bytes.extend_from_slice(piece).unwrap();
        self.room -= piece.len();
    }
}

impl Spare {
    ghost use Rattle.std.specs.Prelude.{length, false, IfOk, map};

    pub(crate) fn reserve(alloc: Global, room: usize) -> Result<Spare, OutOfMemory>
        ensures { IfOk result (λ spare. spare.room ≡ room) }
    {
        Ok(Spare {
            name: String::with_capacity(alloc, LONGEST_OUTPUT_NAME)?,
            bytes: Vec::with_capacity(alloc, room)?,
            room,
        })
    }

    /// One for each room.
    pub(crate) fn reserve_all(
        alloc: Global,
        rooms: &[usize],
    ) -> Result<VecDeque<Spare>, OutOfMemory>
        ensures { IfOk result (λ spares. map (λ spare. spare.room) spares.items ≡ rooms.now) }
    {
        let mut spares = VecDeque::new(alloc);
        for room in rooms {
            spares.push_back(Spare::reserve(alloc, *room)?)?;
        }
        Ok(spares)
    }

    /// An output of this name, with this room.
    pub(crate) fn into_slot(self, name: &str) -> Slot
        requires { length name.now ≤ longest_output_name }
        ensures name { string_bytes result.name ≡ name.now }
        ensures empty { result.sink.bytes.items ≡ [] }
        ensures room { result.sink.room ≡ self.room }
        ensures not_ended { result.ended ≡ false }
    {
        let Spare {
            name: mut named,
            bytes,
            room,
        } = self;
        named.push_str(name).unwrap();
        Slot {
            name: named,
            sink: Sink { bytes, room },
            ended: false,
        }
    }
}

impl Places {
    ghost use Rattle.std.specs.Prelude.{drop, map, slice_index, IfOk};

    /// The rooms of outputs that can be created.
    pub(crate) fn rooms_to_create(rooms: &[usize]) -> &[usize]
        ensures { result.now ≡ drop 2 rooms.now }
    {
        rooms.get(2..).unwrap_or(&[])
    }

    /// Empty places with these rooms.
    pub(crate) fn reserve(alloc: Global, rooms: &[usize]) -> Result<Places, OutOfMemory>
        ensures report { IfOk result (λ places. places.report.bytes.items ≡ []) }
        ensures report_room { IfOk result (λ places. places.report.room ≡ slice_index rooms.now 0) }
        ensures complaint { IfOk result (λ places. places.complaint.bytes.items ≡ []) }
        ensures complaint_room { IfOk result (λ places. places.complaint.room ≡ slice_index rooms.now 1) }
        ensures created { IfOk result (λ places. places.created.items ≡ []) }
        ensures spare { IfOk result (λ places. map (λ spare. spare.room) places.spare.items ≡ drop 2 rooms.now) }
    {
        let report = Sink::reserve(alloc, rooms.get(0).copied().unwrap_or(0))?;
        let complaint = Sink::reserve(alloc, rooms.get(1).copied().unwrap_or(0))?;
        let spare = Spare::reserve_all(alloc, Places::rooms_to_create(rooms))?;
        let created = Vec::with_capacity(alloc, spare.len())?;
        Ok(Places {
            report,
            complaint,
            created,
            spare,
        })
    }
}
