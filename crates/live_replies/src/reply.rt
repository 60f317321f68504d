//! What is said to a line.
ghost use Rattle.std.specs.Prelude.{◌≡◌, ◌⊎◌, ◌++◌, IfOk, OnOk};
ghost use Rattle.live_replies.specs.Said.{IsTextOrNoMemory, said_bytes};
ghost use Rattle.live_replies.specs.Texts.{no_memory_line, refused_line};

use report_text::{Refusal, push_refusal};
use std::alloc::{AllocError, Global};

/// What is said to a line. All but a text is said without memory.
#[derive(Debug, Drop)]
pub enum Said {
    /// Lines, of which the last one begins with `ok` or `refused`.
    Text(Vec<u8>),
    /// Done, with nothing to report.
    Done,
    /// Done, and no memory was left to report what changed.
    Unreported,
    /// Not done, since no memory was left.
    NoMemory,
    /// Not read, since the line has more bytes than the limit.
    TooLong,
}

impl Said {
    /// The text, or that no memory was left for it.
    pub(crate) fn of(text: Result<Vec<u8>, AllocError>) -> Said
        ensures { IsTextOrNoMemory text result }
    {
        match text {
            Ok(text) => Said::Text(text),
            Err(AllocError) => Said::NoMemory,
        }
    }

    /// The bytes that are written.
    pub fn bytes(&self) -> &[u8]
        ensures { result.now ≡ said_bytes self.now }
    {
        match self {
            Said::Text(text) => text,
            Said::Done => b"ok\n",
            Said::Unreported => b"ok untold\n",
            Said::NoMemory => b"refused NoMemory\n",
            Said::TooLong => b"refused TooLong\n",
        }
    }
}

/// The text that reports a refusal.
fn refused_text(alloc: Global, why: &Refusal) -> Result<Vec<u8>, AllocError>
    ensures { IfOk result (λ text. text.items ≡ refused_line why.now) }
{
    let mut text = Vec::new(alloc);
    text.extend_from_slice(b"refused ")?;
    push_refusal(&mut text, why)?;
    text.push(b'\n')?;
    Ok(text)
}

/// Reports a refusal, or that no memory was left.
pub(crate) fn refused(alloc: Global, why: &Refusal) -> Said
    ensures { (said_bytes result ≡ refused_line why.now) ⊎ (said_bytes result ≡ no_memory_line) }
{
    Said::of(refused_text(alloc, why))
}
