//! What a mark gives up.
ghost use Rattle.mark_laws.specs.GivenUp.{AsFewAsLeaveRoom, TakenFirstGoFirst};

/// The checkpoints that are left, once some were given up, are that of sample 0 and those taken last.
pub fn those_taken_first_are_given_up()
    ensures { TakenFirstGoFirst }
{}

/// No fewer leave room for one more; all but that of sample 0 are given up where even then there is none, and only there no
/// checkpoint is taken.
pub fn a_mark_gives_up_as_few_as_it_can()
    ensures { AsFewAsLeaveRoom }
{}
