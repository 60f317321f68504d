//! Reading pair by pair: the open lists are kept in a vector, so that depth takes no stack.

ghost use Rattle.std.specs.Prelude.{◌≡◌, ◌≢◌, ◌<◌, ◌≤◌, IfOk, IfErr, OnOk, length, slice_index, vec_len};
ghost use Rattle.gml_text.specs.Parse.{most_open};

use crate::fault::GmlFault;
use crate::scan;
use crate::token::{self, NumberPart};
use crate::tree::{Bytes, Doc, Pair, Value};
use std::alloc::Global;
use std::mem;

/// The most lists that may be open.
const MOST_OPEN: usize = 64;

/// A list that is not closed yet: its key, and the pairs before it in the list around it.
#[derive(Drop)]
struct OpenList {
    key: Bytes,
    before: Vec<Pair>,
}

/// The state after the pairs so far: the open lists, outermost first, and the pairs of the
/// innermost one.
#[derive(Drop)]
pub(crate) struct Reader {
    alloc: Global,
    lists: Vec<OpenList>,
    pairs: Vec<Pair>,
    ghost within_limit: { vec_len lists ≤ most_open },
}

/// A copy of these bytes.
fn copied(alloc: Global, bytes: &[u8]) -> Result<Bytes, GmlFault>
    ensures ok { IfOk result (λ copy. copy ≡ bytes.now) }
    ensures err { IfErr result (λ fault. fault ≡ GmlFault.Memory) }
{
    let Ok(copy) = Bytes::from_slice(alloc, bytes) else {
        return Err(GmlFault::Memory);
    };
    Ok(copy)
}

impl Reader {
    ghost use Rattle.gml_text.specs.Bytes.{closing, opening, quote};
    ghost use Rattle.gml_text.specs.Reading.{following, start};
    ghost use Rattle.gml_text.specs.Reader.{frames, state_of};
    ghost use Rattle.gml_text.specs.Standing.{gap_state, Goes, IsAnswer, IsNoGap, Stands};
    ghost use Rattle.gml_text.specs.Tree.{◌then◌, no_pairs, pair};
    ghost use Rattle.gml_text.specs.View.{content, pairs};

    /// The state before the first pair.
    pub(crate) fn new(alloc: Global) -> Reader
        ensures { state_of result ≡ start }
    {
        Reader {
            alloc,
            lists: Vec::new(alloc),
            pairs: Vec::new(alloc),
        }
    }

    /// Reads a pair, or its key and the opening bracket if its value is a list, or the bracket that
    /// closes the innermost list.
    pub(crate) fn item(&mut self, bytes: &[u8], at: usize) -> Result<usize, GmlFault>
        requires within { at < length bytes.now }
        requires no_gap { IsNoGap (slice_index bytes.now at) }
        requires stands { Stands bytes.now at (state_of self.old) }
        ensures onward { IfOk result (λ next. at < next) }
        ensures goes { Goes bytes.now result (state_of self.new) }
    {
        let byte = bytes[at];
        if byte == b']' {
            return self.close_list(bytes, at);
        }
        if !token::begins_key(byte) {
            return Err(GmlFault::Syntax { at: at as u64 });
        }
        let end = scan::key_end(bytes, at);
        if end < bytes.len() && token::is_word_byte(bytes[end]) {
            return Err(GmlFault::Syntax { at: end as u64 });
        }
        let key = copied(self.alloc, &bytes[at..end])?;
        let from = scan::gap_end(bytes, end);
        self.value(key, bytes, from)
    }

    /// The document of the pairs, if it may end at the end of the bytes.
    pub(crate) fn finish(self, bytes: &[u8]) -> Result<Doc, GmlFault>
        requires stands { Stands bytes.now (length bytes.now) (state_of self) }
        ensures { IsAnswer bytes.now result }
    {
        if !self.lists.is_empty() {
            let at = bytes.len() as u64;
            return Err(GmlFault::Syntax { at });
        }
        Ok(Doc { pairs: self.pairs })
    }

    /// Reads the value after the key, or the bracket that opens it.
    fn value(&mut self, key: Bytes, bytes: &[u8], at: usize) -> Result<usize, GmlFault>
        requires within { at ≤ length bytes.now }
        requires no_gap { at < length bytes.now → IsNoGap (slice_index bytes.now at) }
        requires stands { Stands bytes.now at (gap_state (following key) (frames self.old.lists.items) (pairs self.old.pairs.items)) }
        ensures onward { IfOk result (λ next. at < next) }
        ensures goes { Goes bytes.now result (state_of self.new) }
    {
        if at == bytes.len() {
            return Err(GmlFault::Syntax { at: at as u64 });
        }
        match bytes[at] {
            b'[' => self.open_list(key, bytes, at),
            b'"' => self.text(key, bytes, at),
            _ => self.number(key, bytes, at),
        }
    }

    /// Reads the string that begins with the quote at `at`.
    fn text(&mut self, key: Bytes, bytes: &[u8], at: usize) -> Result<usize, GmlFault>
        requires within { at < length bytes.now }
        requires opens { slice_index bytes.now at ≡ quote }
        requires stands { Stands bytes.now at (gap_state (following key) (frames self.old.lists.items) (pairs self.old.pairs.items)) }
        ensures onward { IfOk result (λ next. at < next) }
        ensures goes { Goes bytes.now result (state_of self.new) }
    {
        let from = at + 1;
        let end = scan::text_end(bytes, from);
        if end == bytes.len() {
            return Err(GmlFault::Syntax { at: end as u64 });
        }
        let text = copied(self.alloc, &bytes[from..end])?;
        self.put(key, Value::Text(text))?;
        Ok(end + 1)
    }

    /// Reads the number that begins at `at`.
    fn number(&mut self, key: Bytes, bytes: &[u8], at: usize) -> Result<usize, GmlFault>
        requires within { at < length bytes.now }
        requires no_gap { IsNoGap (slice_index bytes.now at) }
        requires no_bracket { slice_index bytes.now at ≢ opening }
        requires no_quote { slice_index bytes.now at ≢ quote }
        requires stands { Stands bytes.now at (gap_state (following key) (frames self.old.lists.items) (pairs self.old.pairs.items)) }
        ensures onward { IfOk result (λ next. at < next) }
        ensures goes { Goes bytes.now result (state_of self.new) }
    {
        let Some(begun) = NumberPart::begun(bytes[at]) else {
            return Err(GmlFault::Syntax { at: at as u64 });
        };
        let (end, part) = scan::number_end(bytes, at, begun);
        if !part.is_complete() || end < bytes.len() && token::is_word_byte(bytes[end]) {
            return Err(GmlFault::Syntax { at: end as u64 });
        }
        let digits = copied(self.alloc, &bytes[at..end])?;
        self.put(key, Value::Number(digits))?;
        Ok(end)
    }

    /// Opens a list after the key.
    fn open_list(&mut self, key: Bytes, bytes: &[u8], at: usize) -> Result<usize, GmlFault>
        requires within { at < length bytes.now }
        requires opens { slice_index bytes.now at ≡ opening }
        requires stands { Stands bytes.now at (gap_state (following key) (frames self.old.lists.items) (pairs self.old.pairs.items)) }
        ensures onward { IfOk result (λ next. at < next) }
        ensures goes { Goes bytes.now result (state_of self.new) }
    {
        if self.lists.len() >= MOST_OPEN {
            return Err(GmlFault::TooDeep { at: at as u64 });
        }
        let before = mem::replace(&mut self.pairs, Vec::new(self.alloc));
        let Ok(()) = self.lists.push(OpenList { key, before }) else {
            return Err(GmlFault::Memory);
        };
        Ok(at + 1)
    }

    /// Closes the innermost list.
    fn close_list(&mut self, bytes: &[u8], at: usize) -> Result<usize, GmlFault>
        requires within { at < length bytes.now }
        requires closes { slice_index bytes.now at ≡ closing }
        requires stands { Stands bytes.now at (state_of self.old) }
        ensures onward { IfOk result (λ next. at < next) }
        ensures goes { Goes bytes.now result (state_of self.new) }
    {
        let Some(OpenList { key, before }) = self.lists.pop() else {
            return Err(GmlFault::Syntax { at: at as u64 });
        };
        let inner = mem::replace(&mut self.pairs, before);
        self.put(key, Value::List(inner))?;
        Ok(at + 1)
    }

    /// Appends the key with this value to the pairs.
    fn put(&mut self, key: Bytes, value: Value) -> Result<(), GmlFault>
        ensures lists { self.new.lists ≡ self.old.lists }
        ensures ok { OnOk result (pairs self.new.pairs.items ≡ pairs self.old.pairs.items then pair key (content value) no_pairs) }
        ensures err { IfErr result (λ fault. fault ≡ GmlFault.Memory) }
    {
        let pair = Pair { key, value };
        let Ok(()) = self.pairs.push(pair) else {
            return Err(GmlFault::Memory);
        };
        Ok(())
    }
}
