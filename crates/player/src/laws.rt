// Laws of the definitions.
ghost use Rattle.player.specs.Heard.{MarksStay, HeardIsNear, HeardFromAMarkIsNear};

/// Where no mark was given up for another, those that stood stand. And where one stood at the last multiple of the spacing up to the first frame,
/// every frame that was heard has one less than the spacing before it.
pub fn what_was_heard_is_near()
    ensures stay { MarksStay }
    ensures near { HeardIsNear }
    ensures from_a_mark { HeardFromAMarkIsNear }
{}
