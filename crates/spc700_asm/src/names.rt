//! The names that lines define.
ghost use Rattle.std.specs.Prelude.{◌≡◌, List, ℕ, Option, Some, None, OnOk, if◌then◌else◌};
ghost use Rattle.std.specs.Str.{bytes_eq};
ghost use Rattle.spc700_asm.specs.Names.{value_in_table, HasMore};

use crate::OutOfMemory;
use std::alloc::Global;
use std::collections::HashMap;

/// The names that lines define, with their values.
#[derive(Drop)]
pub struct Names<'a> {
    values: HashMap<&'a [u8], u16>,
}

impl<'a> Names<'a> {
    /// No names.
    pub fn new(alloc: Global) -> Names<'a>
        ensures { (name : List ℕ) → value_in_table result name ≡ None }
    {
        Names {
            values: HashMap::new(alloc),
        }
    }

    /// The value of a name, if it is defined.
    pub fn value(&self, name: &[u8]) -> Option<u16>
        ensures { result ≡ value_in_table self.now name.now }
    {
        self.values.get(name).copied()
    }

    /// Gives a name a value.
    pub fn define(&mut self, name: &'a [u8], value: u16) -> Result<(), OutOfMemory>
        ensures { OnOk result (HasMore self.old self.new name.now value) }
    {
        self.values.insert(name, value)?;
        Ok(())
    }
}
