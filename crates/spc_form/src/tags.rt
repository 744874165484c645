// Tags, and the length that they give.
ghost use Rattle.std.specs.Prelude.{◌≡◌, true, false, ◌+◌, ◌*◌, ◌-◌, ◌^◌, ◌<◌, ◌≤◌, ◌==◌, All, length, slice_range, IfSome};
ghost use Rattle.std.specs.List.{before_first, list_all, prefix_len};
ghost use Rattle.std.specs.Option.{ForSome};
ghost use Rattle.std.specs.Char.{IsAsciiDigit, is_ascii_digit};
ghost use Rattle.spc_form.specs.Tags.{max_length_of_tags, field_start, field_size, text_of, number_in, has_tags, seconds_known, is_length_known, default_length, length_of, length_of_numbers};

use crate::SpcFile;
use crate::parts::{HEAD_SIZE, TAG_MARK_PLACE, part};
use num_fix::SAMPLE_RATE;
use text_form::{decimal_value, place_of};

/// The samples of a millisecond.
pub const SAMPLES_PER_MILLISECOND: u32 = 32;

/// The frames of a file whose tags give no length: three minutes.
const DEFAULT_FRAMES: u32 = 180 * SAMPLE_RATE;

/// The tags of a file (SPC file format text v0.30).
#[derive(Clone, Copy, Debug, PartialEq, Eq)]
pub enum Tag {
    /// The title of the tune.
    Title,
    /// The title of the game that it is from.
    Game,
    /// Who made the file.
    Dumper,
    /// Comments of any kind.
    Comments,
    /// The day on which the file was made, as text.
    Date,
    /// The length in seconds, before the fade.
    Seconds,
    /// The length of the fade in milliseconds.
    Fade,
    /// Who wrote the tune.
    Artist,
}

/// A length in frames, of which the last `fade` fade out.
#[derive(Clone, Copy, Debug, PartialEq, Eq)]
pub struct Length {
    /// All frames, those of the fade among them; 32,000 are a second.
    pub frames: u32,
    /// The frames of the fade, at the end; 0 is no fade.
    pub fade: u32,
}

/// Where the field of a tag begins.
pub(crate) fn field_start(tag: Tag) -> usize
    ensures start { result ≡ field_start tag }
    ensures bound { result ≤ 0xB1 }
{
    match tag {
        Tag::Title => 0x2E,
        Tag::Game => 0x4E,
        Tag::Dumper => 0x6E,
        Tag::Comments => 0x7E,
        Tag::Date => 0x9E,
        Tag::Seconds => 0xA9,
        Tag::Fade => 0xAC,
        Tag::Artist => 0xB1,
    }
}

/// How many bytes the field of a tag has.
fn field_size(tag: Tag) -> usize
    ensures size { result ≡ field_size tag }
    ensures bound { result ≤ 32 }
{
    match tag {
        Tag::Title | Tag::Game | Tag::Comments | Tag::Artist => 32,
        Tag::Dumper => 16,
        Tag::Date => 11,
        Tag::Seconds => 3,
        Tag::Fade => 5,
    }
}

/// What stands before the first zero byte.
fn before_zero(field: &[u8]) -> &[u8]
    ensures text { result.now ≡ before_first (λ byte. byte == 0) field.now }
    ensures len { length result.now ≤ length field.now }
{
    match place_of(0, field) {
        Some(end) => &field[..end],
        None => field,
    }
}

/// How many digits a text begins with.
fn digit_count(text: &[u8]) -> usize
    ensures count { result ≡ prefix_len is_ascii_digit text.now }
    ensures inside { result ≤ length text.now }
{
    text.iter().take_while(|byte| byte.is_ascii_digit()).count()
}

/// Whether there is nothing but spaces.
fn is_blank(text: &[u8]) -> bool
    ensures { result ≡ list_all (λ byte. byte == 0x20) text.now }
{
    text.iter().all(|byte| *byte == b' ')
}

/// The number in a text: one digit or more, with nothing but spaces after them.
#[tactic(auto, unfolding(crate::specs::Tags::number_in))]
fn number_in(text: &[u8]) -> Option<u32>
    requires { length text.now ≤ 5 }
    ensures value { result ≡ number_in text.now }
    ensures five { IfSome result (λ number. number < 100000) }
    ensures three { length text.now ≤ 3 → IfSome result (λ number. number < 1000) }
{
    let count = digit_count(text);
    if count > 0 && is_blank(&text[count..]) {
        Some(decimal_value(&text[..count]) as u32)
    } else {
        None
    }
}

/// The length by the numbers of both fields.
fn length_of_numbers(seconds: Option<u32>, fade: Option<u32>) -> Length
    requires seconds { ForSome seconds (λ number. number < 1000) }
    requires fade { ForSome fade (λ number. number < 100000) }
    ensures length { result ≡ length_of_numbers seconds fade }
    ensures most { result.frames ≤ max_length_of_tags }
    ensures fade_within { result.fade ≤ result.frames }
{
    match seconds {
        Some(seconds) if seconds != 0 => {
            let fade = SAMPLES_PER_MILLISECOND * fade.unwrap_or(0);
            Length {
                frames: SAMPLE_RATE * seconds + fade,
                fade,
            }
        }
        _ => Length {
            frames: DEFAULT_FRAMES,
            fade: 0,
        },
    }
}

/// Whether bytes say that there are tags.
pub(crate) fn is_tagged_in(bytes: &[u8]) -> bool
    requires { HEAD_SIZE ≤ length bytes.now }
    ensures { result ≡ has_tags bytes.now }
{
    bytes[TAG_MARK_PLACE] == 0x1A
}

/// The text of a tag in the bytes of a file.
#[tactic(auto, unfolding(crate::specs::Tags::text_of))]
pub(crate) fn text_in(bytes: &[u8], tag: Tag) -> &[u8]
    requires { HEAD_SIZE ≤ length bytes.now }
    ensures text { result.now ≡ text_of bytes.now tag }
    ensures len { length result.now ≤ field_size tag }
{
    before_zero(part(bytes, field_start(tag), field_size(tag)))
}

/// The seconds that the tags give.
#[tactic(auto, unfolding(crate::specs::Tags::seconds_known))]
fn seconds_known_in(bytes: &[u8]) -> Option<u32>
    requires { HEAD_SIZE ≤ length bytes.now }
    ensures seconds { result ≡ seconds_known bytes.now }
    ensures three { IfSome result (λ seconds. seconds < 1000) }
{
    if is_tagged_in(bytes) {
        number_in(text_in(bytes, Tag::Seconds))
    } else {
        None
    }
}

/// The length and the fade that the bytes of a file ask for.
#[tactic(auto, unfolding(crate::specs::Tags::length_of))]
pub(crate) fn length_in(bytes: &[u8]) -> Length
    requires { HEAD_SIZE ≤ length bytes.now }
    ensures length { result ≡ length_of bytes.now }
    ensures most { result.frames ≤ max_length_of_tags }
    ensures fade_within { result.fade ≤ result.frames }
{
    length_of_numbers(
        seconds_known_in(bytes),
        number_in(text_in(bytes, Tag::Fade)),
    )
}

/// Whether it is the tags that give the length. Where they don't it is three minutes; where they do, a second at least comes before the fade.
#[tactic(auto, unfolding(crate::specs::Tags::length_of))]
pub(crate) fn is_length_known_in(bytes: &[u8]) -> bool
    requires { HEAD_SIZE ≤ length bytes.now }
    ensures known { result ≡ is_length_known bytes.now }
    ensures unknown { result ≡ false → length_of bytes.now ≡ default_length }
    ensures second { result ≡ true → (length_of bytes.now).fade + SAMPLE_RATE ≤ (length_of bytes.now).frames }
{
    match seconds_known_in(bytes) {
        Some(seconds) => seconds != 0,
        None => false,
    }
}

impl SpcFile {
    /// Whether the file says that it has tags.
    pub fn is_tagged(&self) -> bool
        ensures { result ≡ has_tags self.now }
    {
        is_tagged_in(self.as_slice())
    }

    /// The length and the fade by the tags, in frames, of which there are 32,000 a second;
    /// three minutes without a fade where the tags give no length.
    pub fn length(&self) -> Length
        ensures length { result ≡ length_of self.now }
        ensures most { result.frames ≤ max_length_of_tags }
        ensures fade_within { result.fade ≤ result.frames }
    {
        length_in(self.as_slice())
    }

    /// The bytes of a tag's field before its first zero byte, whatever they are, and whether the file has tags or not.
    pub fn text(&self, tag: Tag) -> &[u8]
        ensures text { result.now ≡ text_of self.now tag }
        ensures len { length result.now ≤ field_size tag }
    {
        text_in(self.as_slice(), tag)
    }
}
