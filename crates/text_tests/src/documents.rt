//! Documents that are read and printed, and bytes that are refused.

ghost use Rattle.gml_text.specs.Printed.{IsPrintable};
ghost use Rattle.gml_text.specs.View.{tree};

use gml_text::{Doc, GmlFault, find, parse, print};
use std::alloc::{AllocError, Global};
use std::test::Fail;

/// A document as an ordinary editor writes it.
const EDITOR_FILE: &str = r##"Creator "yFiles"
Version "2.22"
graph [
 hierarchic 1
 directed 1
 node [ id 0 label "A"
  graphics [ x 0.0 y 0.12345678901234 w 20.0 h 20.0 type "rectangle" fill "#FFCC00" ]
  LabelGraphics [ text "A" fontSize 12 ] ]
 node [ id 1 label "B" graphics [ x 100.00000000000001 y 0.12345678901234 w 20.0 h 20.0 ] ]
 node [ id 2 label "G" isGroup 1 graphics [ x 50.0 y 0.0 w 200.0 h 100.0 ] ]
 edge [ source 0 target 1
  graphics [ fill "#000000" Line [ point [ x 0.0 y 0.0 ] point [ x 50.0 y 40.0 ] point [ x 100.0 y 0.0 ] ] targetArrow "standard" ] ]
]
"##;

/// Its printed form.
const EDITOR_FILE_PRINTED: &str = r##"Creator "yFiles"
Version "2.22"
graph [
  hierarchic 1
  directed 1
  node [
    id 0
    label "A"
    graphics [
      x 0.0
      y 0.12345678901234
      w 20.0
      h 20.0
      type "rectangle"
      fill "#FFCC00"
    ]
    LabelGraphics [
      text "A"
      fontSize 12
    ]
  ]
  node [
    id 1
    label "B"
    graphics [
      x 100.00000000000001
      y 0.12345678901234
      w 20.0
      h 20.0
    ]
  ]
  node [
    id 2
    label "G"
    isGroup 1
    graphics [
      x 50.0
      y 0.0
      w 200.0
      h 100.0
    ]
  ]
  edge [
    source 0
    target 1
    graphics [
      fill "#000000"
      Line [
        point [
          x 0.0
          y 0.0
        ]
        point [
          x 50.0
          y 40.0
        ]
        point [
          x 100.0
          y 0.0
        ]
      ]
      targetArrow "standard"
    ]
  ]
]
"##;

/// The printed form of the document.
fn print_out(alloc: Global, doc: Doc) -> Result<Vec<u8>, AllocError>
    requires { IsPrintable (tree doc) }
{
    print(alloc, &doc)
}

/// The printed form of the bytes.
fn printed(alloc: Global, bytes: &[u8]) -> Result<Vec<u8>, Fail> {
    let doc = parse(alloc, bytes)?;
    Ok(print_out(alloc, doc)?)
}

/// The text repeated.
fn repeated(alloc: Global, text: &[u8], times: usize) -> Result<Vec<u8>, AllocError> {
    let mut bytes = Vec::new(alloc);
    for _ in 0..times {
        bytes.extend_from_slice(text)?;
    }
    Ok(bytes)
}

/// Whether the bytes have this printed form.
fn is_printed(alloc: Global, bytes: &[u8], want: &[u8]) -> Result<bool, Fail> {
    Ok(printed(alloc, bytes)?.as_slice() == want)
}

/// Documents, and their printed forms.
const PRINTED: [(&str, &str); 9] = [
    ("", ""),
    ("\r\n# nothing", ""),
    ("a 1#c", "a 1\n"),
    ("a 1#c\nb#d\n-.5E+07", "a 1\nb -.5E+07\n"),
    ("a \"x\"b 2", "a \"x\"\nb 2\n"),
    ("a[b 1]c 2", "a [\n  b 1\n]\nc 2\n"),
    ("a\"#\r\n&quot;\"_b\r+1.", "a \"#\r\n&quot;\"\n_b +1.\n"),
    ("a[]", "a [\n]\n"),
    (EDITOR_FILE, EDITOR_FILE_PRINTED),
];

#[test]
fn reads_documents(rt: HostRuntime) -> Result<(), Fail> {
    for &(text, want) in &PRINTED {
        assert!(rt;
            is_printed(rt.alloc(), text.as_bytes(), want.as_bytes())?,
            "{text}"
        );
    }
    Ok(())
}

/// Texts, and the first byte that no document has there.
const REFUSED: [(&str, u64); 12] = [
    ("graph [ label \"ab", 17),
    ("graph 1a", 7),
    ("graph 1e", 8),
    ("graph [", 7),
    ("x 1 2", 4),
    ("\0", 0),
    ("a 1b 2", 3),
    ("a+1", 1),
    ("a .e1", 3),
    ("a #c", 4),
    ("]", 0),
    ("a[]]", 3),
];

#[test]
fn refuses_the_first_byte_that_no_document_has_there(rt: HostRuntime) {
    for &(text, at) in &REFUSED {
        let fault = parse(rt.alloc(), text.as_bytes()).err();
        assert!(rt; fault == Some(GmlFault::Syntax { at }), "{text}");
    }
}

/// The index of the first pair with the key.
fn found(alloc: Global, text: &[u8], key: &[u8]) -> Result<Option<usize>, GmlFault> {
    let doc = parse(alloc, text)?;
    Ok(find(&doc.pairs, key))
}

/// Whether the printed form of the bytes, which have no key `c` but in lists, is what they are.
fn is_as_printed(alloc: Global, bytes: &[u8]) -> Result<bool, Fail> {
    Ok(found(alloc, bytes, b"c")?.is_none() && is_printed(alloc, bytes, bytes)?)
}

#[test]
fn reads_and_prints_a_megabyte(rt: HostRuntime) -> Result<(), Fail> {
    let text = repeated(rt.alloc(), b"a 1\nb [\n  c \"x\"\n]\n", 60_000)?;
    assert!(rt; is_as_printed(rt.alloc(), &text)?);
    Ok(())
}

/// Keys, and the index of the first pair with each.
const KEYS: [(&str, Option<usize>); 3] = [("b", Some(1)), ("c", Some(3)), ("d", None)];

#[test]
fn finds_the_first_pair_with_the_key(rt: HostRuntime) -> Result<(), Fail> {
    for &(key, place) in &KEYS {
        let text = b"a 1 b [ c 2 ] b 3 c 4";
        assert!(rt; found(rt.alloc(), text, key.as_bytes())? == place, "{key}");
    }
    Ok(())
}
