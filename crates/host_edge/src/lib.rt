//! The outside of a program: files that are read by name, input line by line, output, and arguments.
//!
//! Contracts describe the outside through three traits. A `Folder` adds a note of each read; a
//! `LineSource`, which gives input line by line, and a `Sink` count their faults. Only some of them
//! expose their bytes. `MemFolder`, `MemLines` and `MemSink` are in memory and expose all of
//! them. `DiskFolder`, `StdSink` and `ReaderLines` over standard input stand for the real machine,
//! and are opaque. `all_arguments` reads the program's arguments, of which nothing is stated.
#![tactic(auto)]

mod arguments;
mod disk_folder;
mod folder;
mod line_source;
mod mem_folder;
mod mem_lines;
mod mem_sink;
mod note;
mod reader_lines;
mod sink;
mod std_sink;

pub use arguments::all_arguments;
pub use disk_folder::DiskFolder;
pub use folder::{Folder, FolderFault};
pub use line_source::{LineRead, LineSource, ReadFailed};
pub use mem_folder::{MemFolder, NamedFile};
pub use mem_lines::MemLines;
pub use mem_sink::MemSink;
pub use reader_lines::ReaderLines;
pub use sink::{Sink, WriteFailed, write_all_to};
pub use std_sink::StdSink;
