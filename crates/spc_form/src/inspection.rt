// What the bytes of a file say, without a copy of them.
ghost use Rattle.std.specs.Prelude.{◌≡◌, true, false, ◌+◌, ◌≤◌, length, map, IfOk};
ghost use Rattle.spc_form.specs.Accepted.{spc_file};
ghost use Rattle.spc_form.specs.Tags.{all_tags, default_length};
ghost use Rattle.spc_form.specs.Inspection.{text_place, info_in, StandThere};

use crate::parts::HEAD_SIZE;
use crate::reading::refusal_of;
use crate::tags::{field_start, is_length_known_in, is_tagged_in, length_in, text_in};
use crate::{Length, SpcRefusal, Tag};
use num_fix::SAMPLE_RATE;

/// Where a text stands in the bytes of a file, as C lays it out.
#[repr(C)]
#[derive(Clone, Copy, Debug, PartialEq, Eq)]
pub struct TextPlace {
    /// Where it begins.
    pub offset: u32,
    /// How many bytes it has, at most 32.
    pub length: u32,
}

/// What the bytes of a file say of it.
#[derive(Clone, Copy, Debug, PartialEq, Eq)]
pub struct SpcInfo {
    /// The length that it asks for.
    pub length: Length,
    /// Whether it says that it has tags.
    pub is_tagged: bool,
    /// Whether it is the tags that give the length; else it is three minutes.
    pub is_length_known: bool,
    /// Where the texts of its tags stand: title, game, artist, dumper, comments, date, seconds and fade.
    pub texts: [TextPlace; 8],
}

/// Where the text of a tag stands.
fn text_place(bytes: &[u8], tag: Tag) -> TextPlace
    requires { HEAD_SIZE ≤ length bytes.now }
    ensures { result ≡ text_place bytes.now tag }
{
    TextPlace {
        offset: field_start(tag) as u32,
        length: text_in(bytes, tag).len() as u32,
    }
}

/// Where the texts of all tags stand.
fn text_places(bytes: &[u8]) -> [TextPlace; 8]
    requires { HEAD_SIZE ≤ length bytes.now }
    ensures { result ≡ map (text_place bytes.now) all_tags }
{
    [
        text_place(bytes, Tag::Title),
        text_place(bytes, Tag::Game),
        text_place(bytes, Tag::Artist),
        text_place(bytes, Tag::Dumper),
        text_place(bytes, Tag::Comments),
        text_place(bytes, Tag::Date),
        text_place(bytes, Tag::Seconds),
        text_place(bytes, Tag::Fade),
    ]
}

/// What bytes say that are a file, or why they are none, as `read_spc` has it. It takes no memory, and the texts stand in the bytes that are
/// given. Where the tags don't give the length it is three minutes; where they do, a second at least comes before the fade.
pub fn inspect(bytes: &[u8]) -> Result<SpcInfo, SpcRefusal>
    ensures info { result ≡ info_in bytes.now }
    ensures unknown { IfOk result (λ info. info.is_length_known ≡ false → info.length ≡ default_length) }
    ensures second { IfOk result (λ info. info.is_length_known ≡ true → info.length.fade + SAMPLE_RATE ≤ info.length.frames) }
    ensures texts { IfOk (spc_file bytes.now) (λ file. StandThere bytes.now file) }
{
    match refusal_of(bytes) {
        Some(refusal) => Err(refusal),
        None => Ok(SpcInfo {
            length: length_in(bytes),
            is_tagged: is_tagged_in(bytes),
            is_length_known: is_length_known_in(bytes),
            texts: text_places(bytes),
        }),
    }
}
