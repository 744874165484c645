// Tags by the numbers that C knows them by.
ghost use Rattle.std.specs.Prelude.{◌≡◌};
ghost use Rattle.std.specs.List.{slice_get};
ghost use Rattle.spc_form.specs.Tags.{all_tags};

use spc_form::Tag;

/// The tags from number 0 on.
const TAGS: [Tag; 8] = [
    Tag::Title,
    Tag::Game,
    Tag::Artist,
    Tag::Dumper,
    Tag::Comments,
    Tag::Date,
    Tag::Seconds,
    Tag::Fade,
];

/// The tag of a number.
pub(crate) fn tag_of(number: u32) -> Option<Tag>
    ensures { result ≡ slice_get all_tags number }
{
    TAGS.get(number as usize).copied()
}
