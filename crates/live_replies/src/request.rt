//! What a line of input asks for.
ghost use Rattle.std.specs.Prelude.{◌≡◌, ◌==◌, ◌<◌, IfOk, IfSome, length, position, unwrap_or};
ghost use Rattle.std.specs.Str.Lines.{strip_carriage_return};
ghost use Rattle.live_replies.specs.Forms.{named_request};
ghost use Rattle.live_replies.specs.Requests.{IsDirectedRequest, after_word, command_request, first_of, first_word, is_label, is_quit};
ghost use Rattle.live_replies.specs.Requests.{is_word, label_request, labelled_of, request_of};
ghost use Rattle.session_model.specs.Calls.{AreDirected};
ghost use Rattle.edit_script.specs.Script.{HaveDirections, words};

use crate::form::named_request;
use drawing::{End, Labelled};
use edit_script::{commands, count_of, id_of, scripts_have_directions};
use gml_text::Bytes;
use plane_geom::Points;
use scene_model::Command;
use std::alloc::{AllocError, Global};

/// What a line of input asks for.
#[derive(Debug, Drop)]
pub enum Request {
    /// Nothing: the line has no words, or it is a comment.
    Nothing,
    /// A command of a script. `Bad` is a line that is not a valid command.
    Do(Command),
    /// A label for a box or a connector.
    Label(Labelled, Bytes),
    /// Moving an end of a connector to another box, at a pin of a class.
    Reconnect {
        number: u32,
        end: End,
        id: i64,
        class: u32,
    },
    /// What a commit would change.
    Preview,
    /// The corners of all lines.
    Lines,
    /// The diagram.
    Gml,
    /// The number of the next connector that is added.
    Next,
    /// The scene.
    ReadScene,
    /// Why connectors have no route.
    Why,
    /// The paths that routes share.
    Shared,
    /// How often lines cross.
    Crossings,
    /// The verdict on a line for a connector.
    Check {
        number: u32,
        corners: Points,
    },
    /// The end.
    Quit,
}

/// The line without one carriage return at its end.
fn without_return(line: &[u8]) -> &[u8]
    ensures { result.now ≡ strip_carriage_return line.now }
{
    match line {
        [front @ .., b'\r'] => front,
        _ => line,
    }
}

/// The first of the commands, or nothing.
fn first_of(list: &[(usize, Command)]) -> Request
    requires { AreDirected list.now }
    ensures request { result ≡ first_of list.now }
    ensures directed { IsDirectedRequest result }
{
    match list {
        [(_, command), ..] => Request::Do(*command),
        [] => Request::Nothing,
    }
}

/// The command on a line of a script, or nothing.
fn command_request(alloc: Global, line: &[u8]) -> Result<Request, AllocError>
    ensures request { IfOk result (λ request. request ≡ command_request line.now) }
    ensures directed { IfOk result IsDirectedRequest }
{
    scripts_have_directions();
    let list = commands(alloc, line)?;
    Ok(first_of(&list))
}

/// Whether the line is this word, where one carriage return at its end is dropped.
fn is_word(word: &[u8], line: &[u8]) -> bool
    ensures { result ≡ is_word word.now line.now }
{
    without_return(line) == word
}

/// Whether the line asks for the end.
pub(crate) fn is_quit(line: &[u8]) -> bool
    ensures { result ≡ is_quit line.now }
{
    is_word(b"quit", line)
}

/// The place of the first space.
fn space_in(line: &[u8]) -> Option<usize>
    ensures place { result ≡ position (λ b. b == 32) line.now }
    ensures within { IfSome result (λ k. k < length line.now) }
{
    line.iter().position(|byte| *byte == b' ')
}

/// The bytes before the first space, and those after it.
fn split_word(line: &[u8]) -> (&[u8], &[u8])
    ensures word { result.0.now ≡ first_word line.now }
    ensures rest { result.1.now ≡ after_word line.now }
{
    match space_in(line) {
        Some(end) => (&line[..end], &line[end + 1..]),
        None => (line, &[]),
    }
}

/// What a label is for, by the words of its kind and of its id or number.
fn labelled_of(kind: &[u8], word: &[u8]) -> Option<Labelled>
    ensures { result ≡ labelled_of kind.now word.now }
{
    if kind == b"box".as_slice() {
        Some(Labelled::Node(id_of(word)?))
    } else if kind == b"connector".as_slice() {
        Some(Labelled::Edge(count_of(word)?))
    } else {
        None
    }
}

/// A label: the words of what it is for, and then its text, which is the rest of the line.
fn label_request(alloc: Global, line: &[u8]) -> Result<Request, AllocError>
    ensures request { IfOk result (λ request. request ≡ label_request line.now) }
    ensures directed { IfOk result IsDirectedRequest }
{
    let (kind, rest) = split_word(line);
    let (word, text) = split_word(rest);
    let Some(what) = labelled_of(kind, word) else {
        return Ok(Request::Do(Command::Bad));
    };
    let text = Bytes::from_slice(alloc, text)?;
    Ok(Request::Label(what, text))
}

/// Whether the line begins with the word `label`.
fn is_label(line: &[u8]) -> bool
    ensures { result ≡ is_label line.now }
{
    let (word, _) = split_word(without_return(line));
    word == b"label".as_slice()
}

/// A request that has words after its name, or a line of a script.
fn other_request(alloc: Global, line: &[u8]) -> Result<Request, AllocError>
    ensures request { IfOk result (λ request. request ≡ unwrap_or (named_request (words line.now)) (command_request line.now)) }
    ensures directed { IfOk result IsDirectedRequest }
{
    match named_request(alloc, line)? {
        Some(request) => Ok(request),
        None => command_request(alloc, line),
    }
}

/// What a line asks for. The only error is out of memory.
pub(crate) fn request_of(alloc: Global, line: &[u8]) -> Result<Request, AllocError>
    ensures request { IfOk result (λ request. request ≡ request_of line.now) }
    ensures directed { IfOk result IsDirectedRequest }
{
    if is_word(b"preview", line) {
        Ok(Request::Preview)
    } else if is_word(b"lines", line) {
        Ok(Request::Lines)
    } else if is_word(b"gml", line) {
        Ok(Request::Gml)
    } else if is_word(b"next", line) {
        Ok(Request::Next)
    } else if is_word(b"scene", line) {
        Ok(Request::ReadScene)
    } else if is_word(b"why", line) {
        Ok(Request::Why)
    } else if is_word(b"shared", line) {
        Ok(Request::Shared)
    } else if is_word(b"crossings", line) {
        Ok(Request::Crossings)
    } else if is_quit(line) {
        Ok(Request::Quit)
    } else if is_label(line) {
        let (_, rest) = split_word(without_return(line));
        label_request(alloc, rest)
    } else {
        other_request(alloc, line)
    }
}
