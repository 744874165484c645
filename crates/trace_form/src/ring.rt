// The ring of events that wait for the samples before them.
ghost use Rattle.std.specs.Prelude.{◌≡◌, ◌≤◌, ◌++◌, ◌∷◌, [], length, IfOk, ◌↔◌, OnOk, OnErr, IsErr, slice_get, drop, IsTrue};
ghost use Rattle.trace_form.specs.Capacities.{event_capacity};

use crate::{OutOfMemory, Record};
use circular_buffer::HeapCircularBuffer;
use std::alloc::Global;
use std::marker::Model;

/// The events that wait in the ring at most.
pub const EVENT_CAPACITY: usize = 256;

/// The ring is full: it holds as many records as its capacity.
#[derive(Clone, Copy, Debug, PartialEq, Eq)]
pub struct Full;

/// Records, from the front, where the oldest is, to the back.
#[derive(Drop)]
pub struct EventRing {
    items: HeapCircularBuffer<Record>,
}

impl Model for EventRing {
    ghost use Rattle.std.specs.Prelude.{◌≡◌, ◌≤◌, List, length};
    ghost use Rattle.trace_form.specs.declared.record.Record.{Record};
    ghost use Rattle.trace_form.specs.Capacities.{event_capacity};

    ghost Value = { List Record };

    ghost view = { λ r. r.items.items };

    ghost invariant = { λ r. (r.items.capacity ≡ event_capacity) × (length r.items.items ≤ event_capacity) };
}

impl EventRing {
    /// An empty ring.
    pub fn new(alloc: Global) -> Result<EventRing, OutOfMemory>
        ensures { IfOk result (λ ring. ring ≡ []) }
    {
        let items = HeapCircularBuffer::with_capacity(alloc, EVENT_CAPACITY)?;
        Ok(EventRing { items })
    }

    /// Adds a record at the back, unless the ring is full.
    pub fn try_push(&mut self, item: Record) -> Result<(), Full>
        ensures full { IsErr result ↔ (length self.old ≡ event_capacity) }
        ensures ok { OnOk result (self.new ≡ self.old ++ item ∷ []) }
        ensures err { OnErr result (self.new ≡ self.old) }
    {
        match self.items.try_push_back(item) {
            Ok(()) => Ok(()),
            Err(_) => Err(Full),
        }
    }

    /// Takes the record at the front, if there is one.
    pub fn pop_front(&mut self) -> Option<Record>
        ensures item { result ≡ slice_get self.old 0 }
        ensures rest { self.new ≡ drop 1 self.old }
    {
        self.items.pop_front()
    }

    /// The record at the front, if there is one.
    pub fn front(&self) -> Option<Record>
        ensures { result ≡ slice_get self.now 0 }
    {
        self.items.front().copied()
    }

    /// The number of records.
    pub fn len(&self) -> usize
        ensures len { result ≡ length self.now }
        ensures within { result ≤ event_capacity }
    {
        self.items.len()
    }

    /// Whether there is no record.
    pub fn is_empty(&self) -> bool
        ensures { IsTrue result ↔ (self.now ≡ []) }
    {
        self.items.is_empty()
    }
}
