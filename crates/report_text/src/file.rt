//! The lines for runs that read nothing of a diagram.
ghost use Rattle.std.specs.Prelude.{◌≡◌, ◌++◌, OnErr, OnOk};
ghost use Rattle.report_text.specs.Files.{read_fault_line, too_long_line, words_line};

use crate::number::push_number;
use std::alloc::AllocError;

/// The greatest number of bytes of a diagram.
pub const MOST_BYTES: u64 = 16_777_216;

/// The greatest number of bytes of a script.
pub const MOST_SCRIPT_BYTES: u64 = 4_194_304;

/// The greatest number of bytes of a certificate.
pub const MOST_CERTIFICATE_BYTES: u64 = 1_073_741_824;

/// Appends the line for arguments that are not valid.
pub fn push_words_line(out: &mut Vec<u8>) -> Result<(), AllocError>
    ensures ok { OnOk result (out.new.items ≡ out.old.items ++ words_line) }
    ensures err { OnErr result (out.new.items ≡ out.old.items) }
{
    out.extend_from_slice(b"words: not understood\n")
}

/// Appends the line for a file that cannot be read.
pub fn push_read_fault_line(out: &mut Vec<u8>, name: &str) -> Result<(), AllocError>
    ensures ok { OnOk result (out.new.items ≡ out.old.items ++ read_fault_line name.now) }
    ensures err { OnErr result (out.new.items ≡ out.old.items) }
{
    let mut text = Vec::new(*out.allocator());
    text.extend_from_slice(b"read fault: ")?;
    text.extend_from_slice(name.as_bytes())?;
    text.push(b'\n')?;
    out.extend_from_slice(&text)
}

/// Appends the line for a file that has more bytes than the limit.
pub fn push_too_long_line(out: &mut Vec<u8>, name: &str, limit: u64) -> Result<(), AllocError>
    ensures ok { OnOk result (out.new.items ≡ out.old.items ++ too_long_line name.now limit) }
    ensures err { OnErr result (out.new.items ≡ out.old.items) }
{
    let mut text = Vec::new(*out.allocator());
    text.extend_from_slice(b"too long: ")?;
    text.extend_from_slice(name.as_bytes())?;
    text.extend_from_slice(b" limit ")?;
    push_number(&mut text, limit)?;
    text.push(b'\n')?;
    out.extend_from_slice(&text)
}
