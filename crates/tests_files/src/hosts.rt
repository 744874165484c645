// What a host in memory does at each of its limits, and the two loops over it.
ghost use Rattle.std.specs.Prelude.{◌≡◌, ◌<◌, [], ◌∷◌, length, true, false, Some, None, is_err, slice_get, IfOk};
ghost use Rattle.snd_host.specs.History.{ended_of};
ghost use Rattle.snd_host.specs.Memory.{memory_state, calls_of, failing_of};

use snd_host::{DripHost, Failed, Host, MemHost, OutFile, ReadRefusal, read_whole, write_all};
use std::alloc::Global;
use std::test::Fail;

const REPORT: OutFile = OutFile(0);

const COMPLAINT: OutFile = OutFile(1);

const FIRST: OutFile = OutFile(2);

/// A host with the input `IN` of five bytes and a second entry of that name.
fn five_bytes(alloc: Global, failing: &[u32], rooms: &[usize]) -> Result<MemHost, Fail>
    ensures ended { IfOk result (λ host. ended_of (memory_state host).calls ≡ []) }
    ensures calls { IfOk result (λ host. calls_of host ≡ 0) }
    ensures failing { IfOk result (λ host. failing_of host ≡ failing.now) }
{
    let files = vec![in alloc;
        (
            String::from_str(alloc, "IN")?,
            Vec::from_slice(alloc, b"12345")?
        ),
        (
            String::from_str(alloc, "IN")?,
            Vec::from_slice(alloc, b"other")?
        ),
    ]?;
    Ok(MemHost::new(alloc, files, failing.to_vec(alloc)?, rooms.to_vec(alloc)?)?)
}

#[test]
fn an_input_is_read_up_to_its_limit(rt: HostRuntime) -> Result<(), Fail> {
    let alloc = rt.alloc();
    let rows = [
        ("IN", 6, Ok(5)),
        ("IN", 5, Ok(5)),
        ("IN", 4, Err(ReadRefusal::TooLong)),
        ("NONE", 5, Err(ReadRefusal::Failed)),
    ];
    for (name, limit, wanted) in rows {
        let mut host = five_bytes(alloc, &[], &[])?;
        match read_whole(alloc, &mut host, name, limit) {
            Ok(bytes) => {
                assert!(rt; wanted == Ok(bytes.len()), "{name} {limit}");
                assert!(rt; bytes.as_slice() == b"12345".as_slice());
            }
            Err(refusal) => assert!(rt; wanted == Err(refusal), "{name} {limit}"),
        }
    }
    Ok(())
}

/// Writes twice to the report and twice to the complaint.
fn write_notes(host: &mut MemHost) -> [Result<(), Failed>; 4]
    ensures { ended_of (memory_state host.new).calls ≡ ended_of (memory_state host.old).calls }
{
    [
        write_all(host, REPORT, b"abc"),
        write_all(host, REPORT, b"d"),
        write_all(host, COMPLAINT, b""),
        write_all(host, COMPLAINT, b"d"),
    ]
}

/// Writes to the first output, and ends it.
fn write_and_end(host: &mut MemHost, bytes: &[u8]) -> [Result<(), Failed>; 2]
    requires { slice_get (ended_of (memory_state host.old).calls) 0 ≡ Some false }
    ensures { length (ended_of (memory_state host.new).calls) ≡ length (ended_of (memory_state host.old).calls) }
{
    [write_all(host, FIRST, bytes), host.finish(FIRST)]
}

#[test]
fn outputs_take_what_they_have_room_for(rt: HostRuntime) -> Result<(), Fail> {
    let alloc = rt.alloc();
    let mut host = five_bytes(alloc, &[], &[3, 0, 2])?;
    assert!(rt; write_notes(&mut host) == [Ok(()), Err(Failed), Ok(()), Err(Failed)]);
    assert!(rt; host.create("OUT") == Ok(FIRST));
    assert!(rt; write_and_end(&mut host, b"xy") == [Ok(()), Ok(())]);
    assert!(rt; host.create("MORE") == Err(Failed));
    assert!(rt; host.output(REPORT) == b"abc".as_slice());
    assert!(rt; host.output(FIRST) == b"xy".as_slice());
    assert!(rt; host.calls() == 7);
    Ok(())
}

/// A name of so many bytes.
fn name_of(alloc: Global, bytes: u32) -> Result<String, Fail> {
    let mut name = String::new(alloc);
    for _ in 0..bytes {
        name.push_str("n")?;
    }
    Ok(name)
}

#[test]
fn outputs_have_names_of_200_bytes(rt: HostRuntime) -> Result<(), Fail> {
    for (bytes, wanted) in [(200, Ok(FIRST)), (201, Err(Failed))] {
        let mut host = five_bytes(rt.alloc(), &[], &[0, 0, 0])?;
        let name = name_of(rt.alloc(), bytes)?;
        assert!(rt; host.create(name.as_str()) == wanted, "{bytes}");
    }
    Ok(())
}

/// Writes twice to the report, and answers as the second write did.
fn second_write(host: &mut MemHost) -> Result<usize, Failed>
    requires none_yet { calls_of host.old ≡ 0 }
    requires second_fails { failing_of host.old ≡ 1 ∷ [] }
    ensures { is_err result ≡ true }
{
    let _ = host.write(REPORT, b"ab");
    host.write(REPORT, b"c")
}

#[test]
fn a_call_whose_number_is_listed_fails(rt: HostRuntime) -> Result<(), Fail> {
    let mut host = five_bytes(rt.alloc(), &[1], &[3])?;
    assert!(rt; second_write(&mut host) == Err(Failed));
    assert!(rt; host.calls() == 2);
    assert!(rt; host.output(REPORT) == b"ab".as_slice());
    Ok(())
}

#[test]
fn a_host_may_give_and_take_one_byte_at_a_time(rt: HostRuntime) -> Result<(), Fail> {
    let alloc = rt.alloc();
    let mut host = DripHost::new(five_bytes(alloc, &[], &[3])?);
    match read_whole(alloc, &mut host, "IN", 5) {
        Ok(bytes) => assert!(rt; bytes.as_slice() == b"12345".as_slice()),
        Err(refusal) => panic!(rt; "{refusal:?}"),
    }
    assert!(rt; write_all(&mut host, REPORT, b"abcd") == Err(Failed));
    assert!(rt; host.inner().output(REPORT) == b"abc".as_slice());
    assert!(rt; host.inner().calls() == 11);
    Ok(())
}
