//! Why a call is refused, in numbers.
ghost use Rattle.std.specs.Prelude.{◌≡◌, ◌≤◌, OnErr};
ghost use Rattle.reroute_c.specs.Files.{diagram_fault, offset_fault, open_fault, part_fault, part_number, text_fault, why_fault};
ghost use Rattle.reroute_c.specs.Codes.{call_fault, closed_fault, edit_fault, fault_of, memory_fault, no_fault, numbered, syntax_fault};

use diagram_read::{DiagramFault, Part};
use drawing::{OpenFault, Why};
use gml_text::GmlFault;
use scene_model::{SceneFault, SessionFault};

/// A code, 0 if nothing is refused, and what the refusal names: an id, a number or a place, or 0.
#[repr(C)]
#[derive(Drop)]
pub struct Fault {
    pub code: u32,
    pub value: i64,
}

impl Fault {
    /// Nothing is refused.
    pub(crate) fn none() -> Fault
        ensures { result ≡ no_fault }
    {
        Fault { code: 0, value: 0 }
    }

    /// What is asked for is not valid.
    pub(crate) fn syntax() -> Fault
        ensures { result ≡ syntax_fault }
    {
        Fault { code: 1, value: 0 }
    }

    /// No session is open.
    pub(crate) fn closed() -> Fault
        ensures { result ≡ closed_fault }
    {
        Fault { code: 98, value: 0 }
    }

    /// Out of memory.
    pub(crate) fn memory() -> Fault
        ensures { result ≡ memory_fault }
    {
        Fault { code: 99, value: 0 }
    }

    /// The fault of a call's answer.
    pub(crate) fn of(answer: Result<(), SessionFault>) -> Fault
        ensures fault { result ≡ fault_of answer }
        ensures refused { OnErr answer (1 ≤ result.code) }
    {
        match answer {
            Ok(()) => Fault::none(),
            Err(fault) => of_call(fault),
        }
    }
}

/// Why a call is refused.
pub(crate) fn of_call(fault: SessionFault) -> Fault
    ensures fault { result ≡ call_fault fault }
    ensures refused { 1 ≤ result.code }
{
    match fault {
        SessionFault::NoTransaction => Fault { code: 2, value: 0 },
        SessionFault::AlreadyOpen => Fault { code: 3, value: 0 },
        SessionFault::NothingToUndo => Fault { code: 14, value: 0 },
        SessionFault::NothingToRedo => Fault { code: 15, value: 0 },
        SessionFault::Edit(fault) => of_edit(fault),
        SessionFault::Memory => Fault::memory(),
    }
}

/// A fault that names a number.
pub(crate) fn numbered(code: u32, number: u32) -> Fault
    ensures { result ≡ numbered code number }
{
    Fault {
        code,
        value: i64::from(number),
    }
}

/// Why an edit is refused.
pub(crate) fn of_edit(fault: SceneFault) -> Fault
    ensures fault { result ≡ edit_fault fault }
    ensures refused { 1 ≤ result.code }
{
    match fault {
        SceneFault::UnknownNode { id } => Fault { code: 4, value: id },
        SceneFault::UnknownEdge { number } => numbered(5, number),
        SceneFault::NodeExists { id } => Fault { code: 6, value: id },
        SceneFault::NodeInUse { edge } => numbered(7, edge),
        SceneFault::SameNode { id } => Fault { code: 8, value: id },
        SceneFault::OutOfRange { word } => numbered(9, word),
        SceneFault::PinOutside { place } => numbered(10, place),
        SceneFault::UnknownPinClass { class } => numbered(11, class),
        SceneFault::NoSuchPlace { place } => numbered(12, place),
        SceneFault::TooMany { limit } => numbered(13, limit),
        SceneFault::PinInUse { edge } => numbered(17, edge),
        SceneFault::Memory => Fault::memory(),
    }
}

/// A fault at an offset, which is reported up to the greatest number.
fn at_offset(code: u32, at: u64) -> Fault
    ensures { result ≡ offset_fault code at }
{
    Fault {
        code,
        value: at.min(i64::MAX as u64) as i64,
    }
}

/// Why bytes are not valid GML.
fn of_text(fault: GmlFault) -> Fault
    ensures fault { result ≡ text_fault fault }
    ensures refused { 1 ≤ result.code }
{
    match fault {
        GmlFault::Syntax { at } => at_offset(101, at),
        GmlFault::TooDeep { at } => at_offset(102, at),
        GmlFault::Memory => Fault::memory(),
    }
}

/// A part of a diagram, as a number.
fn part_number(part: Part) -> u32
    ensures number { result ≡ part_number part }
    ensures few { result ≤ 5 }
{
    match part {
        Part::Router => 1,
        Part::Node => 2,
        Part::Edge => 3,
        Part::Pin => 4,
        Part::Via => 5,
    }
}

/// A fault of a part, whose code is the part's after this one, with the part's place.
fn of_part(code: u32, part: Part, place: u32) -> Fault
    requires { code ≤ 130 }
    ensures fault { result ≡ part_fault code part place }
    ensures refused { code ≤ result.code }
{
    numbered(code + part_number(part), place)
}

/// Why a document is not a valid diagram.
fn of_diagram(fault: DiagramFault) -> Fault
    ensures fault { result ≡ diagram_fault fault }
    ensures refused { 1 ≤ result.code }
{
    match fault {
        DiagramFault::NoGraph => numbered(103, 0),
        DiagramFault::BadId { place } => numbered(104, place),
        DiagramFault::SameId { place } => numbered(105, place),
        DiagramFault::NoPlace { place } => numbered(106, place),
        DiagramFault::BadPin { place } => numbered(107, place),
        DiagramFault::BadEnd { place } => numbered(108, place),
        DiagramFault::BadVia { place } => numbered(109, place),
        DiagramFault::BadWeight { place } => numbered(110, place),
        DiagramFault::BadNumber { part, place } => of_part(110, part, place),
        DiagramFault::OutOfRange { part, place } => of_part(120, part, place),
        DiagramFault::TooMany { part } => of_part(130, part, 0),
        DiagramFault::Memory => Fault::memory(),
    }
}

/// Why a text opens no session.
pub(crate) fn of_open(fault: OpenFault) -> Fault
    ensures fault { result ≡ open_fault fault }
    ensures refused { 1 ≤ result.code }
{
    match fault {
        OpenFault::Text(fault) => of_text(fault),
        OpenFault::Diagram(fault) => of_diagram(fault),
        OpenFault::Memory => Fault::memory(),
    }
}

/// Why a command of a script is refused.
pub(crate) fn of_why(why: Why) -> Fault
    ensures { result ≡ why_fault why }
{
    match why {
        Why::NoForm => Fault::syntax(),
        Why::Refused(fault) => of_call(fault),
    }
}
