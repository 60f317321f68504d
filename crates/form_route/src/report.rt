//! The report of a replay.
ghost use Rattle.std.specs.Prelude.{◌≡◌, IfOk, not};
ghost use Rattle.std.specs.List.{count_by, list_any};
ghost use Rattle.form_route.specs.Report.{edges_routed, has_refusal, is_no_route, is_refused, report, routed_by, script_status, unrouted_hint, unrouted_in};
ghost use Rattle.scene_model.specs.Scene.{is_loop};

use report_text::{
    EdgeRouted, Hint, LineReply, Reply, Routed, Status, Unrouted, push_end_line, push_open_line,
    push_reply_lines, push_routed_lines,
};
use route_book::Book;
use route_session::Session;
use scene_model::Edge;
use scene_store::Scene;
use std::alloc::{AllocError, Global};

/// The route of the edge, by the answers of the book.
fn routed_by(book: &Book, edge: &Edge) -> Routed
    ensures { result ≡ routed_by book.now edge.now }
{
    if edge.from == edge.to {
        return Routed::Loop;
    }
    let route = book
        .answer(edge.number)
        .and_then(|answer| answer.route.as_ref());
    match route {
        Some(route) => Routed::Cost(route.cost),
        None => Routed::NoRoute,
    }
}

/// The routes of all edges of the scene, by the answers of the book.
pub fn edges_routed(
    alloc: Global,
    scene: &Scene,
    book: &Book,
) -> Result<Vec<EdgeRouted>, AllocError>
    ensures { IfOk result (λ edges. edges.items ≡ edges_routed scene.now book.now) }
{
    let mut edges = Vec::new(alloc);
    for edge in scene.edges() {
        edges.push(EdgeRouted {
            edge: edge.number,
            routed: routed_by(book, edge),
        })?;
    }
    Ok(edges)
}

/// Whether the edge has no route by the answers of the book, though it is no loop.
fn is_unrouted(book: &Book, edge: &Edge) -> bool
    ensures { result ≡ is_no_route (routed_by book.now edge.now) }
{
    matches!(routed_by(book, edge), Routed::NoRoute)
}

/// Whether the edge leads from one node to another.
fn is_connector(edge: &Edge) -> bool
    ensures { result ≡ not (is_loop edge.now) }
{
    edge.from != edge.to
}

/// How many of the edges have no route by the answers of the book.
fn unrouted_count(book: &Book, edges: &[Edge]) -> usize
    ensures { result ≡ count_by (λ e. is_no_route (routed_by book.now e)) edges.now }
{
    edges.iter().filter(|edge| is_unrouted(book, edge)).count()
}

/// How many of the edges are connectors.
fn connector_count(edges: &[Edge]) -> usize
    ensures { result ≡ count_by (λ e. not (is_loop e)) edges.now }
{
    edges.iter().filter(|edge| is_connector(edge)).count()
}

/// How many connectors of the session's present scene have no route.
fn unrouted_of(session: &Session) -> Unrouted
    ensures { result ≡ unrouted_in session.now.world.present session.now.book }
{
    let edges = session.scene().edges();
    Unrouted {
        without: unrouted_count(session.book(), edges),
        all: connector_count(edges),
    }
}

/// What people are told of the connectors that have no route, if there are any.
fn unrouted_hint(unrouted: Unrouted) -> Hint
    ensures { result ≡ unrouted_hint unrouted }
{
    if unrouted.without == 0 {
        Hint::Nothing
    } else {
        Hint::Unrouted(unrouted)
    }
}

/// What people are told of the session's present scene.
pub(crate) fn hint_of(session: &Session) -> Hint
    ensures { result ≡ unrouted_hint (unrouted_in session.now.world.present session.now.book) }
{
    unrouted_hint(unrouted_of(session))
}

/// The report on a script whose opening searched `opening` connectors, with these replies, and with
/// this session at the end.
pub(crate) fn report(
    alloc: Global,
    count: bool,
    opening: u64,
    replies: &[LineReply],
    session: &Session,
) -> Result<Vec<u8>, AllocError>
    ensures { IfOk result (λ text. text.items ≡ report count opening replies.now session.now.world session.now.book) }
{
    let mut text = Vec::new(alloc);
    push_open_line(&mut text, count, opening)?;
    push_reply_lines(&mut text, count, replies)?;
    push_end_line(&mut text, session.is_open())?;
    let edges = edges_routed(alloc, session.scene(), session.book())?;
    push_routed_lines(&mut text, &edges)?;
    Ok(text)
}

/// Whether the reply is a refusal.
fn is_refused(reply: &Reply) -> bool
    ensures { result ≡ is_refused reply.now }
{
    matches!(reply, Reply::Refused(_))
}

/// Whether any command was refused.
fn any_is_refused(replies: &[LineReply]) -> bool
    ensures { result ≡ list_any (λ r. is_refused r.reply) replies.now }
{
    replies.iter().any(|line| is_refused(&line.reply))
}

/// Whether a command was refused, or the script ended in an open transaction, which is refused too.
fn has_refusal(replies: &[LineReply], session: &Session) -> bool
    ensures { result ≡ has_refusal replies.now session.now.world }
{
    any_is_refused(replies) || session.is_open()
}

/// How a script ends in which something was refused, or nothing was.
pub fn script_status(is_refused: bool) -> Status
    ensures { result ≡ script_status is_refused }
{
    if is_refused {
        Status::Refused
    } else {
        Status::Done
    }
}

/// How the script ends that was replied to like this, with this session at the end.
pub(crate) fn status_of(replies: &[LineReply], session: &Session) -> Status
    ensures { result ≡ script_status (has_refusal replies.now session.now.world) }
{
    script_status(has_refusal(replies, session))
}
