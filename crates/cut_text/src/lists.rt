// Lists that grow by what the lines of a text say.
ghost use Rattle.std.specs.Prelude.{◌≡◌, ◌++◌, ◌∷◌, [], OnOk, IfErr};

use crate::TextRefusal;

/// Adds an element to a list, if there is memory for it.
pub fn add<T: Drop>(list: &mut Vec<T>, element: T) -> Result<(), TextRefusal>
    ensures added { OnOk result (list.new.items ≡ list.old.items ++ element ∷ []) }
    ensures unchanged { IfErr result (λ refusal. list.new.items ≡ list.old.items) }
    ensures memory { IfErr result (λ refusal. refusal ≡ TextRefusal.OutOfMemory) }
{
    match list.push(element) {
        Ok(()) => Ok(()),
        Err(_) => Err(TextRefusal::OutOfMemory),
    }
}
