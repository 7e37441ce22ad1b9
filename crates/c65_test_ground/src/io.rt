use c65_io::{
    Failed, FileFault, Files, HostFiles, HostSink, HostSource, MemFiles, MemSink, MemSource, Sink,
    Source, mem_files, mem_sink, mem_source, write_all,
};
use std::fs;
use std::io::{self, ErrorKind, Read, Write};
use std::test::Fail;

/// Whether a read of two bytes gives this answer and these bytes, and leaves those.
fn reads(
    source: &mut MemSource,
    answer: Result<usize, Failed>,
    bytes: [u8; 2],
    left: &[u8],
) -> bool {
    let mut room = [0; 2];
    source.read(&mut room) == answer && room == bytes && source.left() == left
}

#[test]
fn a_source_fails_at_the_listed_calls_and_takes_nothing_there(rt: HostRuntime) -> Result<(), Fail> {
    let bytes = Vec::from_slice(rt.alloc(), b"abc")?;
    let mut source = mem_source(bytes, Vec::from_slice(rt.alloc(), &[1, 3])?);
    let rows = [
        (Err(Failed), [0, 0], "abc"),
        (Ok(2), [97, 98], "c"),
        (Err(Failed), [0, 0], "c"),
        (Ok(1), [99, 0], ""),
        (Ok(0), [0, 0], ""),
    ];
    for (answer, room, left) in rows {
        assert!(rt; reads(&mut source, answer, room, left.as_bytes()));
    }
    Ok(())
}

/// Whether a write of a piece that is not empty gives this answer, and these bytes have then been written.
fn writes(sink: &mut MemSink, piece: &str, answer: Result<usize, Failed>, written: &str) -> bool {
    !piece.is_empty()
        && sink.write(piece.as_bytes()) == answer
        && sink.written() == written.as_bytes()
}

#[test]
fn a_sink_fails_at_the_listed_calls_and_appends_nothing_there(rt: HostRuntime) -> Result<(), Fail> {
    let mut sink = mem_sink(rt.alloc(), Vec::from_slice(rt.alloc(), &[2])?);
    let rows = [
        ("AB", Ok(2), "AB"),
        ("C", Err(Failed), "AB"),
        ("C", Ok(1), "ABC"),
    ];
    for (piece, answer, written) in rows {
        assert!(rt; writes(&mut sink, piece, answer, written));
    }
    assert!(rt; write_all(&mut sink, b"DE") == Ok(()) && sink.written() == b"ABCDE".as_slice());
    Ok(())
}

/// Whether a read of two bytes of this path gives this answer and these bytes.
fn reads_at(
    files: &mut MemFiles,
    path: &str,
    at: u32,
    answer: Result<usize, FileFault>,
    bytes: [u8; 2],
) -> bool {
    let mut room = [0; 2];
    files.read(path.as_bytes(), at, &mut room) == answer && room == bytes
}

/// Whether the third write of these files fails, and the next two make a file and another.
fn writes_files(files: &mut MemFiles) -> bool {
    files.write(b"a.c", b"new") == Err(Failed)
        && files.write(b"a.c", b"new") == Ok(())
        && files.write(b"a.out", b"") == Ok(())
        && files.get(b"a.c") == Some(b"new")
        && files.get(b"a.out") == Some(b"")
        && files.get(b"b.h").is_none()
}

#[test]
fn files_fail_at_the_listed_calls(rt: HostRuntime) -> Result<(), Fail> {
    let alloc = rt.alloc();
    let mut files = mem_files(alloc, Vec::from_slice(alloc, &[2, 3, 6])?);
    files.put(
        Vec::from_slice(alloc, b"a.c")?,
        Vec::from_slice(alloc, b"xyz")?,
    )?;
    let rows = [
        ("a.c", 0, Ok(2), [120, 121]),
        ("a.c", 0, Err(FileFault::Failed), [0, 0]),
        ("b.h", 0, Err(FileFault::Missing), [0, 0]),
        ("a.c", 2, Ok(1), [122, 0]),
        ("a.c", 3, Ok(0), [0, 0]),
    ];
    for (path, at, answer, room) in rows {
        assert!(rt; reads_at(&mut files, path, at, answer, room));
    }
    assert!(rt; writes_files(&mut files));
    Ok(())
}

/// A reader that fails, and a writer that takes nothing.
#[derive(Drop)]
struct Broken;

impl Read for Broken {
    fn read(&mut self, _into: &mut [u8]) -> io::Result<usize> {
        Err(io::Error::from(ErrorKind::PermissionDenied))
    }
}

impl Write for Broken {
    fn write(&mut self, _bytes: &[u8]) -> io::Result<usize> {
        Ok(0)
    }

    fn flush(&mut self) -> io::Result<()> {
        Ok(())
    }
}

#[test]
fn a_host_source_reads_its_reader(rt: HostRuntime) {
    let mut room = [0; 4];
    let mut source = HostSource::new(b"abc".as_slice());
    assert!(rt; source.read(&mut room) == Ok(3) && room == [97, 98, 99, 0]);
    assert!(rt; source.read(&mut room) == Ok(0));
    assert!(rt; HostSource::new(Broken).read(&mut room) == Err(Failed));
}

#[test]
fn a_host_sink_writes_its_writer(rt: HostRuntime) {
    assert!(rt; write_all(&mut HostSink::new(io::sink()), b"abc") == Ok(()));
    assert!(rt; HostSink::new(Broken).write(b"abc") == Err(Failed));
}

/// What a read of some bytes answers.
fn read<F: Files>(files: &mut F, path: &[u8]) -> Result<usize, FileFault> {
    files.read(path, 0, &mut [0; 4])
}

#[test]
fn host_files_hold_what_was_written(rt: HostRuntime) -> Result<(), Fail> {
    let mut room = [0; 4];
    let mut files = HostFiles::new(&rt);
    let path = b"c65_io_trial.bin";
    assert!(rt; files.write(path, b"abcde") == Ok(()));
    assert!(rt; files.read(path, 3, &mut room) == Ok(2) && room == [100, 101, 0, 0]);
    assert!(rt; files.read(path, 5, &mut room) == Ok(0));
    fs::remove_file(&rt, "c65_io_trial.bin")?;
    assert!(rt; read(&mut files, path) == Err(FileFault::Missing));
    assert!(rt; read(&mut files, b".") == Err(FileFault::Failed));
    assert!(rt; files.write(b".", b"") == Err(Failed));
    Ok(())
}

/// No file of a host has a name that is no UTF-8, that has a zero byte, or that is too long, as a path or in a part.
#[test]
fn a_name_that_no_file_can_have_is_a_missing_file(rt: HostRuntime) {
    let mut files = HostFiles::new(&rt);
    let long = [b'a'; 5000];
    let names = [b"no\xff".as_slice(), b"a\0b", &long[..300], &long];
    for name in names {
        assert!(rt; read(&mut files, name) == Err(FileFault::Missing));
        assert!(rt; files.write(name, b"") == Err(Failed));
    }
}
