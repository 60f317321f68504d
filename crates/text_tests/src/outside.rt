//! Reads and writes, in memory and with real files, and outputs that take few bytes at a time or are closed.

use host_edge::{
    DiskFolder, Folder, FolderFault, MemFolder, MemSink, NamedFile, Sink, StdSink, WriteFailed,
    write_all_to,
};
use std::alloc::{AllocError, Global};
use std::cell::RefCell;
use std::fmt::Display;
use std::io::ErrorKind;
use std::test::Fail;
use std::{env, fs, io, process};

/// More bytes than any small buffer has.
const MEGABYTE: usize = 1_000_000;

/// A file in memory with this name and these bytes.
fn named(alloc: Global, name: &str, bytes: &str) -> Result<NamedFile, AllocError> {
    Ok(NamedFile {
        name: String::from_str(alloc, name)?,
        bytes: Vec::from_slice(alloc, bytes.as_bytes())?,
    })
}

/// Names and bytes of files, of which two have one name.
const FILES: [(&str, &str); 3] = [("a", "first"), ("b", "0123456789"), ("a", "second")];

/// The files in memory.
fn files(alloc: Global) -> Result<Vec<NamedFile>, AllocError> {
    let mut files = Vec::new(alloc);
    for &(name, bytes) in &FILES {
        files.push(named(alloc, name, bytes)?)?;
    }
    Ok(files)
}

/// Whether the next read of the folder has this result.
fn answers<F: Folder>(
    folder: &mut F,
    name: &str,
    limit: u64,
    want: Result<&[u8], FolderFault>,
) -> bool {
    match folder.read_file(name, limit) {
        Ok(bytes) => want == Ok(bytes.as_slice()),
        Err(fault) => want == Err(fault),
    }
}

/// Reads one after the other, of which the fourth fails: the name, the limit and the result.
const READS: [(&str, u64, Result<&str, FolderFault>); 5] = [
    ("a", 5, Ok("first")),
    ("b", 9, Err(FolderFault::TooLong { limit: 9 })),
    ("c", 9, Err(FolderFault::Failed)),
    ("b", 10, Err(FolderFault::Failed)),
    ("b", 10, Ok("0123456789")),
];

/// The first of the reads with another result, from 1, or 0 where none has.
fn wrong_read(folder: &mut MemFolder) -> usize {
    for (place, &(name, limit, want)) in READS.iter().enumerate() {
        let is_so = match want {
            Ok(text) => answers(folder, name, limit, Ok(text.as_bytes())),
            Err(fault) => answers(folder, name, limit, Err(fault)),
        };
        if !is_so {
            return place.saturating_add(1);
        }
    }
    0
}

#[test]
fn reads_files_in_memory(rt: HostRuntime) -> Result<(), Fail> {
    let alloc = rt.alloc();
    let fails = vec![in alloc; 4]?;
    let mut folder = MemFolder::new(alloc, files(alloc)?, fails);
    assert_eq!(rt; wrong_read(&mut folder), 0);
    Ok(())
}

/// A text that is written.
const TEXT: &str = "# edge 1: cost 100.000\n";

/// How many bytes a sink takes at once and which of its calls fails, the result of writing the
/// text, and what is held after it.
const WRITES: [(usize, u64, Result<(), WriteFailed>, &str); 6] = [
    (10, 0, Ok(()), TEXT),
    (1, 0, Ok(()), TEXT),
    (10, 1, Err(WriteFailed), ""),
    (10, 2, Err(WriteFailed), "# edge 1: "),
    (10, 3, Err(WriteFailed), "# edge 1: cost 100.0"),
    (10, 4, Ok(()), TEXT),
];

/// Whether the text is written as expected by the sink, and held after it.
fn writes(mut sink: MemSink, want: Result<(), WriteFailed>, held: &str) -> bool {
    let none = sink.write(b"");
    let written = write_all_to(&mut sink, TEXT.as_bytes());
    none == Ok(0) && written == want && sink.held() == held.as_bytes()
}

#[test]
fn writes_in_memory(rt: HostRuntime) -> Result<(), Fail> {
    let alloc = rt.alloc();
    for &(most, failing, want, held) in &WRITES {
        let sink = MemSink::new(alloc, most, vec![in alloc; failing]?);
        assert!(rt; writes(sink, want, held), "{most} at {failing}");
    }
    Ok(())
}

/// The folder of files that pass.
fn directory(rt: &HostRuntime) -> Result<String, Fail> {
    Ok(String::from_str(rt.alloc(), env::temp_dir(rt)?.as_str())?)
}

/// The name of a file of this run.
fn file_name(rt: &HostRuntime, what: &str) -> Result<String, Fail> {
    let directory = directory(rt)?;
    let name = format!(in rt.alloc();
        "{}/host_edge_{}_{what}",
        directory.as_str(),
        process::id(rt.process())
    );
    Ok(name?)
}

/// Whether the file with the name, written with the bytes, is read as expected.
fn is_read(
    rt: &HostRuntime,
    name: &str,
    bytes: &[u8],
    limit: u64,
    want: Result<&[u8], FolderFault>,
) -> Result<bool, Fail> {
    fs::write(rt, name, bytes)?;
    let mut folder = DiskFolder::new(rt.alloc(), rt);
    let is_so = answers(&mut folder, name, limit, want);
    fs::remove_file(rt, name)?;
    Ok(is_so)
}

#[test]
fn reads_real_files(rt: HostRuntime) -> Result<(), Fail> {
    let name = file_name(&rt, "digits")?;
    let digits = "0123456789".as_bytes();
    let longer = Err(FolderFault::TooLong { limit: 9 });
    assert!(rt; is_read(&rt, name.as_str(), digits, 10, Ok(digits))?);
    assert!(rt; is_read(&rt, name.as_str(), digits, 9, longer)?);
    let large = vec![in rt.alloc(); b'x'; MEGABYTE]?;
    assert!(rt; is_read(&rt, name.as_str(), &large, MEGABYTE as u64, Ok(&large))?);
    Ok(())
}

/// Whether a read of what has this name fails.
fn is_no_file(rt: &HostRuntime, name: String) -> bool {
    let mut folder = DiskFolder::new(rt.alloc(), rt);
    answers(&mut folder, name.as_str(), 10, Err(FolderFault::Failed))
}

#[test]
fn reads_no_missing_file_and_no_directory(rt: HostRuntime) -> Result<(), Fail> {
    assert!(rt;
        is_no_file(&rt, file_name(&rt, "missing")?),
        "a missing file"
    );
    assert!(rt; is_no_file(&rt, directory(&rt)?), "a directory");
    Ok(())
}

/// A standard output that is closed, or takes so many bytes of a piece at most and keeps what it took.
#[derive(Drop)]
struct Page {
    is_closed: bool,
    most: usize,
    kept: RefCell<Vec<u8>>,
}

impl Page {
    fn keep(&self, bytes: &[u8]) -> io::Result<()> {
        let Ok(mut kept) = self.kept.try_borrow_mut() else {
            return Err(io::Error::from(ErrorKind::ResourceBusy));
        };
        Ok(kept.extend_from_slice(bytes)?)
    }
}

impl Print for Page {
    fn print<D: Display + Drop>(&self, _value: D) -> io::Result<()> {
        Err(io::Error::from(ErrorKind::Unsupported))
    }

    fn println<D: Display + Drop>(&self, _value: D) -> io::Result<()> {
        Err(io::Error::from(ErrorKind::Unsupported))
    }

    fn write_all(&self, bytes: &[u8]) -> io::Result<()> {
        self.keep(bytes)
    }

    fn write_some(&self, bytes: &[u8]) -> io::Result<usize> {
        if self.is_closed {
            return Err(io::Error::from(ErrorKind::BrokenPipe));
        }
        let taken = bytes.len().min(self.most);
        self.keep(&bytes[..taken])?;
        Ok(taken)
    }
}

/// Pieces that are written one after the other.
const PIECES: [&[u8]; 5] = [b"one", b"", b"two, three", b"4", b"five and six\n"];

/// Whether each piece is written to the page.
fn are_written(page: &Page, pieces: &[&[u8]]) -> bool {
    let mut sink = StdSink::new(page);
    for piece in pieces {
        if write_all_to(&mut sink, piece) != Ok(()) {
            return false;
        }
    }
    true
}

#[test]
fn writes_each_piece_once_and_in_order(rt: HostRuntime) {
    let page = Page {
        is_closed: false,
        most: 3,
        kept: RefCell::new(Vec::new(rt.alloc())),
    };
    let written = are_written(&page, &PIECES);
    let kept = page.kept.into_inner();
    assert!(rt; written);
    assert!(rt; kept.as_slice() == b"onetwo, three4five and six\n".as_slice());
}

/// The length of a piece that is written by several calls.
const LONG: usize = 2_097_152;

#[test]
fn writes_a_long_piece_whole(rt: HostRuntime) -> Result<(), Fail> {
    let page = Page {
        is_closed: false,
        most: 100_000,
        kept: RefCell::new(Vec::new(rt.alloc())),
    };
    let piece = vec![in rt.alloc(); b'x'; LONG]?;
    let written = are_written(&page, &[piece.as_slice()]);
    let kept = page.kept.into_inner();
    assert!(rt; written);
    assert!(rt; kept.as_slice() == piece.as_slice());
    Ok(())
}

#[test]
fn reports_a_closed_output(rt: HostRuntime) {
    let page = Page {
        is_closed: true,
        most: 3,
        kept: RefCell::new(Vec::new(rt.alloc())),
    };
    assert!(rt; !are_written(&page, &PIECES));
}
