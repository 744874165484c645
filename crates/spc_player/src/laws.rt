// A law of the definitions.
ghost use Rattle.spc_player.specs.Inputs.{TuneStays};

/// A player whose opening and file stay, as each call but `mute` and `Player::restart` leaves them, stays one of its tune: of its file, its table
/// of weights, and the voices that are muted from the opening on.
pub fn the_opening_and_the_file_determine_the_tune()
    ensures { TuneStays }
{}
