//! Reading a document.

ghost use Rattle.std.specs.Prelude.{◌≡◌, ℕ, IfOk, Ok, Err, Result};
ghost use Rattle.gml_text.specs.Parse.{IsDocument, IsSyntaxAt, IsTooDeepAt, ParsesAs};
ghost use Rattle.gml_text.specs.Printed.{IsPrintable};
ghost use Rattle.gml_text.specs.Tree.{Pairs};
ghost use Rattle.gml_text.specs.View.{Answers, tree};
ghost use Rattle.gml_text.specs.declared.fault.GmlFault.{GmlFault};
ghost use Rattle.gml_text.specs.declared.fault.GmlFault.TheVariants.{Syntax, TooDeep};

use crate::fault::GmlFault;
use crate::reader::Reader;
use crate::scan;
use crate::tree::Doc;
use std::alloc::Global;

/// Reads a document: the only tree of pairs that the bytes spell.
///
/// Let s be the length of the longest beginning of the bytes that is also the beginning of some
/// document, of any depth, and let t be the offset of the first bracket that opens a 65th list, if
/// there is one and t is below s. The error is `TooDeep` at t exactly if there is such a t, and
/// `Syntax` at s exactly if there is none and the bytes are not valid GML. Offsets count from 0.
/// The error is `Memory` when out of memory, which may come before either fault is met.
///
/// The work grows only with the number of bytes. The open lists are kept in a vector, so that depth
/// takes no stack, and no bytes are kept except those of the tree.
pub fn parse(alloc: Global, bytes: &[u8]) -> Result<Doc, GmlFault>
    ensures ok { IfOk result (λ doc. IsDocument (tree doc) bytes.now) }
    ensures syntax { (at : ℕ) → result ≡ Err (Syntax at) → IsSyntaxAt bytes.now at }
    ensures too_deep { (at : ℕ) → result ≡ Err (TooDeep at) → IsTooDeepAt bytes.now at }
    ensures printable { IfOk result (λ doc. IsPrintable (tree doc)) }

    // The result is what the bytes are read as, unless out of memory.
    ensures exact { (answer : Result Pairs GmlFault) → ParsesAs bytes.now answer → Answers result answer }
{
    let mut reader = Reader::new(alloc);
    let mut at = scan::gap_end(bytes, 0);
    while at < bytes.len() {
        let next = reader.item(bytes, at)?;
        at = scan::gap_end(bytes, next);
    }
    reader.finish(bytes)
}
