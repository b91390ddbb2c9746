//! Files and sinks in memory, and those of the system.
ghost use Rattle.std.specs.Prelude.{◌≡◌, ◌<◌, IsTrue};
ghost use Rattle.def_outside.specs.Calls.{past_count};

use std::alloc::Global;
use std::marker::{Send, Sync};
use std::process::Abort;
use std::test::Fail;
use std::{env, fs};
use xg_io::{
    Failed, Files, OpenFault, OpenGate, ReadAllFault, RealFiles, RealSink, WriteFault, read_all,
    write_all,
};
use xg_memory::{MemFiles, MemSink, SureFiles, SureSink};

/// Two files, of which the calls listed fail.
fn two_files(alloc: Global, failing: &[u64]) -> Result<MemFiles, Fail> {
    let mut files = MemFiles::new(alloc, failing)?;
    files.add("a", b"abcdef")?;
    files.add("b", b"")?;
    Ok(files)
}

/// Whether a file is read as these bytes.
fn holds<F: Files>(alloc: Global, files: &mut F, name: &str, limit: usize, bytes: &[u8]) -> bool
    requires name { IsTrue (F.may_open files.old name.now) }
    requires limit { limit < past_count }
    ensures same_names { F.may_open files.new ≡ F.may_open files.old }
{
    match read_all(alloc, files, name, limit) {
        Ok(read) => read.as_slice() == bytes,
        Err(_) => false,
    }
}

/// Whether a file is refused with this fault.
fn refuses<F: Files>(
    alloc: Global,
    files: &mut F,
    name: &str,
    limit: usize,
    fault: ReadAllFault,
) -> bool
    requires name { IsTrue (F.may_open files.old name.now) }
    requires limit { limit < past_count }
    ensures same_names { F.may_open files.new ≡ F.may_open files.old }
{
    match read_all(alloc, files, name, limit) {
        Ok(_) => false,
        Err(found) => found == fault,
    }
}

#[test]
fn files_in_memory_are_read_whole(rt: HostRuntime) -> Result<(), Fail> {
    let alloc = rt.alloc();
    let mut files = two_files(alloc, &[])?;
    assert!(rt;
        holds(alloc, &mut files, "a", 6, b"abcdef")
            && holds(alloc, &mut files, "b", 0, b"")
            && refuses(alloc, &mut files, "a", 5, ReadAllFault::TooLong)
            && refuses(alloc, &mut files, "c", 5, ReadAllFault::ReadFault)
    );
    files.add("a", b"new")?;
    assert!(rt; holds(alloc, &mut files, "a", 6, b"new"));
    Ok(())
}

/// Whether the file isn't read where this call fails, and is read afterwards.
fn fails_once(alloc: Global, call: u64) -> Result<bool, Fail> {
    let mut files = two_files(alloc, &[call])?;
    Ok(
        refuses(alloc, &mut files, "a", 6, ReadAllFault::ReadFault)
            && holds(alloc, &mut files, "a", 6, b"abcdef"),
    )
}

// Reading the file of six bytes makes three calls: it is opened, its bytes come, and then its end.
#[test]
fn each_call_can_fail(rt: HostRuntime) -> Result<(), Fail> {
    let alloc = rt.alloc();
    for call in 1..4u64 {
        assert!(rt; fails_once(alloc, call)?);
    }
    let mut files = two_files(alloc, &[4])?;
    assert!(rt; holds(alloc, &mut files, "a", 6, b"abcdef"));
    Ok(())
}

#[test]
fn sure_files_are_read_whole(rt: HostRuntime) -> Result<(), Fail> {
    let alloc = rt.alloc();
    let mut files = SureFiles::new(alloc)?;
    files.add("a", b"abcdef")?;
    assert!(rt;
        holds(alloc, &mut files, "a", 6, b"abcdef")
            && refuses(alloc, &mut files, "a", 5, ReadAllFault::TooLong)
            && holds(alloc, &mut files, "b", 0, b"")
    );
    files.add("a", b"new")?;
    files.add("b", b"a file")?;
    assert!(rt;
        holds(alloc, &mut files, "a", 6, b"new") && holds(alloc, &mut files, "b", 6, b"a file")
    );
    Ok(())
}

#[test]
fn a_sure_sink_takes_everything(rt: HostRuntime) {
    let mut sink = SureSink::new();
    let is_new = sink.count() == 0;
    assert!(rt;
        is_new
            && write_all(&mut sink, b"abc") == Ok(())
            && write_all(&mut sink, b"") == Ok(())
            && write_all(&mut sink, b"de") == Ok(())
            && sink.count() == 5
    );
}

#[test]
fn a_sink_in_memory_takes_what_fits(rt: HostRuntime) -> Result<(), Fail> {
    let mut sink = MemSink::new(rt.alloc(), 5, &[3])?;
    assert!(rt;
        write_all(&mut sink, b"abc") == Ok(())
            && write_all(&mut sink, b"") == Ok(())
            && write_all(&mut sink, b"def") == Err(WriteFault)
            && sink.bytes() == b"abcde".as_slice()
    );
    Ok(())
}

#[test]
fn a_sink_in_memory_goes_on_after_a_fault(rt: HostRuntime) -> Result<(), Fail> {
    let mut sink = MemSink::new(rt.alloc(), 8, &[1])?;
    assert!(rt;
        write_all(&mut sink, b"abc") == Err(WriteFault)
            && write_all(&mut sink, b"abc") == Ok(())
            && sink.bytes() == b"abc".as_slice()
    );
    Ok(())
}

/// Whether a file of this name that the system writes is read as what was written, and refused where it is too long.
/// The file is gone after it.
fn reads_back(rt: &HostRuntime, name: &str) -> Result<bool, Fail> {
    let content = vec![in rt.alloc(); 7u8; 200_000]?;
    fs::write(rt, name, content.as_slice())?;
    let mut files = RealFiles::new(rt);
    let is_read = holds(rt.alloc(), &mut files, name, 200_000, content.as_slice())
        && refuses(rt.alloc(), &mut files, name, 199_999, ReadAllFault::TooLong);
    fs::remove_file(rt, name)?;
    Ok(is_read)
}

/// Whether the system has no such file to read.
fn has_none(rt: &HostRuntime, name: &str) -> bool {
    let mut files = RealFiles::new(rt);
    refuses(
        rt.alloc(),
        &mut files,
        name,
        200_000,
        ReadAllFault::ReadFault,
    )
}

#[test]
fn the_systems_files_are_read(rt: HostRuntime) -> Result<(), Fail> {
    let mut path = env::temp_dir(&rt)?;
    path.push("xg_io_the_systems_files_are_read")?;
    let name = path.as_path().to_str().ok_or("a path in UTF-8")?;
    let is_read = reads_back(&rt, name)?;
    assert!(rt; is_read && has_none(&rt, name) && has_none(&rt, "/"));
    Ok(())
}

#[test]
fn a_stream_of_the_system_is_written(rt: HostRuntime) -> Result<(), Fail> {
    let mut path = env::temp_dir(&rt)?;
    path.push("xg_io_a_stream_of_the_system_is_written")?;
    let name = path.as_path().to_str().ok_or("a path in UTF-8")?;
    let mut sink = RealSink::new(fs::create(&rt, name)?);
    assert!(rt; write_all(&mut sink, b"text") == Ok(()));
    assert!(rt; fs::read(&rt, name)?.as_slice() == b"text".as_slice());
    fs::remove_file(&rt, name)?;
    Ok(())
}

#[test]
fn a_full_device_is_a_write_fault(rt: HostRuntime) -> Result<(), Fail> {
    let mut full = RealSink::new(fs::OpenOptions::new().write(true).open(&rt, "/dev/full")?);
    assert!(rt; write_all(&mut full, b"text") == Err(WriteFault));
    Ok(())
}

fn crosses_threads<T: Send + Sync + Drop>(_value: T) {}

#[test]
fn plain_data_crosses_threads() {
    crosses_threads(Failed);
    crosses_threads(OpenFault::Failed);
    crosses_threads(ReadAllFault::TooLong);
    crosses_threads(WriteFault);
    crosses_threads(OpenGate);
}
