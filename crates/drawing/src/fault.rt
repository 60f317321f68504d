//! Why a text opens no session.

use diagram_read::DiagramFault;
use gml_text::GmlFault;

/// Why a text opens no session. Out of memory is any of three.
#[derive(Debug, Drop)]
pub enum OpenFault {
    /// The bytes are not valid GML.
    Text(GmlFault),
    /// The document is not a valid diagram.
    Diagram(DiagramFault),
    /// Out of memory, for the session.
    Memory,
}
