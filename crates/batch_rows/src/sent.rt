//! Voices that are sent to the echo at their own volumes: the sums of what they send are the main sums.

ghost use Rattle.std.specs.Prelude.{◌≡◌, map, true};
ghost use Rattle.batch_rows.specs.Sent.{AreAllSent, sent_whole, unsent};

use dsp_state::Volumes;
use echo_unit::SumRows;

/// Whether a voice is sent at its own volumes.
fn is_sent_whole(one: &Volumes) -> bool
    ensures { result ≡ true → sent_whole one.now ≡ one.now }
{
    one.sent_left == one.left && one.sent_right == one.right
}

/// Whether all voices are sent to the echo at their own volumes. A muted voice counts as sent, at volume 0.
pub(crate) fn are_all_sent(volumes: &[Volumes; 8]) -> bool
    ensures { result ≡ true → AreAllSent volumes.now }
{
    for v in 0..8 {
        if !is_sent_whole(&volumes[v]) {
            return false;
        }
    }
    true
}

/// The volumes of a voice that isn't sent.
fn unsent(one: &Volumes) -> Volumes
    ensures { result ≡ unsent one.now }
{
    Volumes {
        left: one.left,
        right: one.right,
        sent_left: 0,
        sent_right: 0,
    }
}

/// The volumes of voices of which none is sent.
pub(crate) fn all_unsent(volumes: &[Volumes; 8]) -> [Volumes; 8]
    ensures { result ≡ map unsent volumes.now }
{
    [
        unsent(&volumes[0]),
        unsent(&volumes[1]),
        unsent(&volumes[2]),
        unsent(&volumes[3]),
        unsent(&volumes[4]),
        unsent(&volumes[5]),
        unsent(&volumes[6]),
        unsent(&volumes[7]),
    ]
}

/// Sends the main sums.
pub(crate) fn send_main(sums: &mut SumRows)
    ensures { sums.new ≡ record sums.old { sent_left = sums.old.main_left; sent_right = sums.old.main_right } }
{
    sums.sent_left = sums.main_left;
    sums.sent_right = sums.main_right;
}
