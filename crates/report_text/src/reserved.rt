// Reports in memory that was allocated before.
ghost use Rattle.std.specs.Prelude.{◌≡◌, ◌+◌, ◌≤◌, ◌++◌, length, vec_len, vec_capacity, decimal};
ghost use Rattle.report_text.specs.Capacity.{max_count_digits};

/// Adds bytes, for which there is room, so that no memory is taken.
pub fn put_reserved(report: &mut Vec<u8>, bytes: &[u8])
    requires { vec_len report.old + length bytes.now ≤ vec_capacity report.old }
    ensures items { report.new.items ≡ report.old.items ++ bytes.now }
    ensures room { vec_capacity report.old ≤ vec_capacity report.new }
{
    let _ = report.extend_from_slice(bytes);
}

/// Adds a word and a count, for which there is room, so that no memory is taken.
pub fn put_count_reserved(report: &mut Vec<u8>, word: &[u8], count: u64)
    requires { vec_len report.old + length word.now + max_count_digits ≤ vec_capacity report.old }
    ensures items { report.new.items ≡ report.old.items ++ word.now ++ decimal count }
    ensures len { vec_len report.new ≤ vec_len report.old + length word.now + max_count_digits }
    ensures room { vec_capacity report.old ≤ vec_capacity report.new }
{
    put_reserved(report, word);
    put_reserved(report, itoa::Buffer::new().format(count).as_bytes());
}
