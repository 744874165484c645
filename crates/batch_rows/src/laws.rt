// The laws of batches by rows.
ghost use Rattle.batch_rows.specs.Laws.{ApartByRows, ReachByRows, BytesByRows, StillByRows, ApartByBounds, ResultsOnce, KeysOnce};

/// Samples whose voices read nothing that the echo writes are those by rows. They are such where the echo can't write what voices read, where
/// the cells that it writes in them have no byte that a voice can read in them, and where echo writes are off.
pub fn batches_by_rows()
    ensures apart { ApartByRows }
    ensures reach { ReachByRows }
    ensures bytes { BytesByRows }
    ensures still { StillByRows }
{}

/// Where the window has no page of the two runs of 162 bytes of each chain, nor of the entries, the reach isn't entangled: no chain is walked.
pub fn chains_by_bounds()
    ensures { ApartByBounds }
{}

/// The results of a batch are those of its last sample, but for ENDX. The key-ons that a batch latches are latched at its first poll.
pub fn once_a_batch()
    ensures results { ResultsOnce }
    ensures keys { KeysOnce }
{}
