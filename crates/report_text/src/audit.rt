//! The lines of the audit of a certificate.
ghost use Rattle.std.specs.Prelude.{◌≡◌, ◌++◌, OnErr, OnOk};
ghost use Rattle.report_text.specs.Audits.{audit_line_line, audit_rule_line, audit_yes_line};

use crate::number::push_number;
use std::alloc::AllocError;

/// Appends the line of a certificate that proves its scene.
pub fn push_audit_yes_line(out: &mut Vec<u8>) -> Result<(), AllocError>
    ensures ok { OnOk result (out.new.items ≡ out.old.items ++ audit_yes_line) }
    ensures err { OnErr result (out.new.items ≡ out.old.items) }
{
    out.extend_from_slice(b"audit: yes\n")
}

/// Appends the line of a file that is not a certificate, with the number of its first bad line.
pub fn push_audit_line_line(out: &mut Vec<u8>, line: u64) -> Result<(), AllocError>
    ensures ok { OnOk result (out.new.items ≡ out.old.items ++ audit_line_line line) }
    ensures err { OnErr result (out.new.items ≡ out.old.items) }
{
    let mut text = Vec::new(*out.allocator());
    text.extend_from_slice(b"audit: no, line ")?;
    push_number(&mut text, line)?;
    text.push(b'\n')?;
    out.extend_from_slice(&text)
}

/// Appends the line of a certificate that does not prove its scene, with the edge and the rule that fails.
pub fn push_audit_rule_line(out: &mut Vec<u8>, edge: u32, rule: u32) -> Result<(), AllocError>
    ensures ok { OnOk result (out.new.items ≡ out.old.items ++ audit_rule_line edge rule) }
    ensures err { OnErr result (out.new.items ≡ out.old.items) }
{
    let mut text = Vec::new(*out.allocator());
    text.extend_from_slice(b"audit: no, edge ")?;
    push_number(&mut text, u64::from(edge))?;
    text.extend_from_slice(b" rule ")?;
    push_number(&mut text, u64::from(rule))?;
    text.push(b'\n')?;
    out.extend_from_slice(&text)
}
