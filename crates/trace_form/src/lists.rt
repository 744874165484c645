// Frames and records with a fixed capacity, so that adding one takes no memory.
ghost use Rattle.std.specs.Prelude.{◌≡◌, ◌+◌, ◌<◌, ◌≤◌, ◌++◌, ◌∷◌, [], length, IfOk};
ghost use Rattle.trace_form.specs.Capacities.{frame_capacity, record_capacity};

use crate::{OutOfMemory, Record};
use num_fix::Frame;
use std::alloc::Global;
use std::marker::Model;

/// The capacity of the list of frames.
pub const FRAME_CAPACITY: usize = 128;

/// The capacity of the list of records.
pub const RECORD_CAPACITY: usize = 1344;

/// Frames, in the order in which they were made.
#[derive(Drop)]
pub struct Frames {
    items: Vec<Frame>,
}

impl Model for Frames {
    ghost use Rattle.std.specs.Prelude.{◌≤◌, List, vec_len, vec_capacity};
    ghost use Rattle.num_fix.specs.declared.Frame.{Frame};
    ghost use Rattle.trace_form.specs.Capacities.{frame_capacity};

    ghost Value = { List Frame };

    ghost view = { λ f. f.items.items };

    ghost invariant = { λ f. (frame_capacity ≤ vec_capacity f.items) × (vec_len f.items ≤ frame_capacity) };
}

impl Frames {
    /// No frames, and the capacity for as many as there can be.
    pub fn new(alloc: Global) -> Result<Frames, OutOfMemory>
        ensures { IfOk result (λ frames. frames ≡ []) }
    {
        let items = Vec::with_capacity(alloc, FRAME_CAPACITY)?;
        Ok(Frames { items })
    }

    /// How many more there is room for.
    pub fn room(&self) -> usize
        ensures { result + length self.now ≡ frame_capacity }
    {
        FRAME_CAPACITY - self.items.len()
    }

    /// Adds a frame.
    pub fn push(&mut self, item: Frame)
        requires { length self.old < frame_capacity }
        ensures { self.new ≡ self.old ++ item ∷ [] }
    {
        let _ = self.items.push(item);
    }

    /// Adds frames.
    pub fn extend(&mut self, items: &[Frame])
        requires { length self.old + length items.now ≤ frame_capacity }
        ensures { self.new ≡ self.old ++ items.now }
    {
        let _ = self.items.extend_from_slice(items);
    }

    /// Drops all frames.
    pub fn clear(&mut self)
        ensures { self.new ≡ [] }
    {
        self.items.clear();
    }

    /// The frames.
    pub fn as_slice(&self) -> &[Frame]
        ensures frames { result.now ≡ self.now }
        ensures few { length result.now ≤ frame_capacity }
    {
        self.items.as_slice()
    }
}

/// Records, in the order of the events.
#[derive(Drop)]
pub struct Records {
    items: Vec<Record>,
}

impl Model for Records {
    ghost use Rattle.std.specs.Prelude.{◌≤◌, List, vec_len, vec_capacity};
    ghost use Rattle.trace_form.specs.declared.record.Record.{Record};
    ghost use Rattle.trace_form.specs.Capacities.{record_capacity};

    ghost Value = { List Record };

    ghost view = { λ r. r.items.items };

    ghost invariant = { λ r. (record_capacity ≤ vec_capacity r.items) × (vec_len r.items ≤ record_capacity) };
}

impl Records {
    /// No records, and the capacity for as many as there can be.
    pub fn new(alloc: Global) -> Result<Records, OutOfMemory>
        ensures { IfOk result (λ records. records ≡ []) }
    {
        let items = Vec::with_capacity(alloc, RECORD_CAPACITY)?;
        Ok(Records { items })
    }

    /// How many more there is room for.
    pub fn room(&self) -> usize
        ensures { result + length self.now ≡ record_capacity }
    {
        RECORD_CAPACITY - self.items.len()
    }

    /// Adds a record.
    pub fn push(&mut self, item: Record)
        requires { length self.old < record_capacity }
        ensures { self.new ≡ self.old ++ item ∷ [] }
    {
        let _ = self.items.push(item);
    }

    /// Drops all records.
    pub fn clear(&mut self)
        ensures { self.new ≡ [] }
    {
        self.items.clear();
    }

    /// The records.
    pub fn as_slice(&self) -> &[Record]
        ensures records { result.now ≡ self.now }
        ensures few { length result.now ≤ record_capacity }
    {
        self.items.as_slice()
    }
}
