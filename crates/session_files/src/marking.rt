// The checkpoint of a cut.
ghost use Rattle.std.specs.Prelude.{◌≡◌};
ghost use Rattle.cut_form.specs.CutBook.{with_one_if_room};
ghost use Rattle.cut_server.specs.ServerState.{book_of, slots_of};
ghost use Rattle.cut_server.specs.Server.{pages_at, KeepsTune};

use chip_form::Chip;
use cut_form::MAX_CHECKPOINTS;
use cut_server::CutServer;

/// Takes a checkpoint where none stands, fewer than 64 are live and there are pages enough.
pub(crate) fn mark_if_room<C: Chip>(server: &mut CutServer<C>)
    ensures book { book_of server.new ≡ with_one_if_room (slots_of server.old) (pages_at C.meaning C.saving server.old) (book_of server.old) }
    ensures tune { KeepsTune C.meaning C.saving server.old server.new }
{
    if !server.has(server.at()) && server.count() < MAX_CHECKPOINTS {
        let _ = server.checkpoint();
    }
}
