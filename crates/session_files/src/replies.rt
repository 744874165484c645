// Replies as text, in room that was taken before.
ghost use Rattle.std.specs.Prelude.{◌≡◌, ◌+◌, ◌≤◌, ◌++◌, length, vec_len, vec_capacity, codes};
ghost use Rattle.cut_form.specs.Session.{mark_text, reply_text};
ghost use Rattle.session_files.specs.Replies.{reply_line, max_text_bytes, max_reply_bytes};

use cut_form::{Marked, Reply};
use report_text::{put_count_reserved, put_reserved};

/// Adds what came of a mark at a position.
fn put_mark(report: &mut Vec<u8>, at: u32, marked: Marked)
    requires { vec_len report.old + max_text_bytes ≤ vec_capacity report.old }
    ensures items { report.new.items ≡ report.old.items ++ mark_text at marked }
    ensures len { vec_len report.new ≤ vec_len report.old + max_text_bytes }
    ensures room { vec_capacity report.old ≤ vec_capacity report.new }
{
    match marked {
        Marked::Kept => put_count_reserved(report, b"kept ", u64::from(at)),
        Marked::Taken { gave } => {
            put_count_reserved(report, b"mark ", u64::from(at));
            put_count_reserved(report, b" gave ", u64::from(gave));
        }
        Marked::NoPages {
            gave: _,
            need,
            free,
        } => {
            put_count_reserved(report, b"no pages need ", u64::from(need));
            put_count_reserved(report, b" free ", u64::from(free));
        }
    }
}

/// Adds the text of a reply.
fn put_reply(report: &mut Vec<u8>, reply: Reply)
    requires { vec_len report.old + max_text_bytes ≤ vec_capacity report.old }
    ensures items { report.new.items ≡ report.old.items ++ reply_text reply }
    ensures len { vec_len report.new ≤ vec_len report.old + max_text_bytes }
    ensures room { vec_capacity report.old ≤ vec_capacity report.new }
{
    match reply {
        Reply::At(at) => put_count_reserved(report, b"at ", u64::from(at)),
        Reply::Played { count, at } => {
            put_count_reserved(report, b"played ", u64::from(count));
            put_count_reserved(report, b" at ", u64::from(at));
        }
        Reply::Refused(count) => put_count_reserved(report, b"refused ", u64::from(count)),
        Reply::AfterMark { at, marked } => put_mark(report, at, marked),
        Reply::Dropped(sample) => put_count_reserved(report, b"dropped ", u64::from(sample)),
        Reply::NoneAt(sample) => put_count_reserved(report, b"none ", u64::from(sample)),
        Reply::Counted { free, marks, made } => {
            put_count_reserved(report, b"free ", u64::from(free));
            put_count_reserved(report, b" marks ", u64::from(marks));
            put_count_reserved(report, b" made ", made);
        }
    }
}

/// Adds the line of a reply, for which there is room.
pub(crate) fn put_line(report: &mut Vec<u8>, reply: Reply)
    requires { vec_len report.old + max_reply_bytes ≤ vec_capacity report.old }
    ensures items { report.new.items ≡ report.old.items ++ reply_line reply }
    ensures len { vec_len report.new ≤ vec_len report.old + max_reply_bytes }
    ensures room { vec_capacity report.old ≤ vec_capacity report.new }
{
    put_reply(report, reply);
    put_reserved(report, b"\n");
}
