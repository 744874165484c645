// The parts of a text that is split at a character.
ghost use Rattle.std.specs.Prelude.{◌≡◌, ◌<◌, ◌==◌, ◌∷◌, length, option_copied, position, IfSome, IfNone};
ghost use Rattle.std.specs.List.{slice_split};
ghost use Rattle.text_form.specs.Parts.{parts_left};

/// The place of the first such character.
pub fn place_of(character: u8, text: &[u8]) -> Option<usize>
    ensures place { result ≡ position (λ other. other == character) text.now }
    ensures inside { IfSome result (λ place. place < length text.now) }
{
    text.iter().position(|other| *other == character)
}

/// The first part of a text, and what stands after the character that ends it.
pub fn first_part(character: u8, text: &[u8]) -> (&[u8], Option<&[u8]>)
    ensures parts { slice_split (λ other. other == character) text.now ≡ result.0.now ∷ parts_left character (option_copied result.1) }
    ensures shorter { IfSome result.1 (λ after. length after.now < length text.now) }
    ensures whole { IfNone result.1 (result.0.now ≡ text.now) }
{
    match place_of(character, text) {
        Some(place) => (text.split_at(place).0, Some(text.split_at(place + 1).1)),
        None => (text, None),
    }
}
