//! The bytes of a source.
ghost use Rattle.std.specs.Prelude.{◌≡◌, ◌≤◌, length, Ok, IfOk, IfErr};
ghost use Rattle.spc700_asm.specs.Assembly.{assembly, max_source, Refuses};

use crate::emission::emit;
use crate::refusal::AsmRefusal;
use crate::survey::survey;
use std::alloc::Global;

/// The bytes of a source of at most 1,048,576 bytes, from an origin on, which is the address of its first line.
///
/// It is refused for the least line with one of the faults `Form`, `Number`, `Twice` and `Long`, with the first of them in
/// this order; where no line has one of these, for the least line with `Name` or `Far`. It may want memory.
pub fn assemble(alloc: Global, source: &[u8], origin: u16) -> Result<Vec<u8>, AsmRefusal>
    requires { length source.now ≤ max_source }
    ensures bytes { IfOk result (λ bytes. assembly source.now origin ≡ Ok bytes.items) }
    ensures refusal { IfErr result (λ refusal. Refuses refusal (assembly source.now origin)) }
{
    let names = survey(alloc, source, origin)?;
    emit(alloc, &names, source, origin)
}
