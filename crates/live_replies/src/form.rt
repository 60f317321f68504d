//! The forms of the requests that have words after their name.
ghost use Rattle.std.specs.Prelude.{◌≡◌, IfOk, IfSome, map};
ghost use Rattle.edit_script.specs.Script.{words};
ghost use Rattle.live_replies.specs.Forms.{check_form, corners_of, end_of, formed, named_request, reconnect_form};
ghost use Rattle.live_replies.specs.Requests.{IsDirectedRequest};

use crate::request::Request;
use drawing::End;
use edit_script::{count_of, id_of, number_of, words};
use plane_geom::{Point, Points};
use scene_model::Command;
use std::alloc::{AllocError, Global};

/// An end of a connector, by its name.
fn end_of(word: &[u8]) -> Option<End>
    ensures { result ≡ end_of word.now }
{
    if word == b"source".as_slice() {
        Some(End::From)
    } else if word == b"target".as_slice() {
        Some(End::To)
    } else {
        None
    }
}

fn reconnect_form(args: &[&[u8]]) -> Option<Request>
    ensures request { result ≡ reconnect_form (map (λ w. w.now) args.now) }
    ensures directed { IfSome result IsDirectedRequest }
{
    let [number, end, id, class] = args else {
        return None;
    };
    Some(Request::Reconnect {
        number: count_of(number)?,
        end: end_of(end)?,
        id: id_of(id)?,
        class: count_of(class)?,
    })
}

/// The corners, of each the words of x and of y.
fn corners_of(alloc: Global, words: &[&[u8]]) -> Result<Option<Points>, AllocError>
    ensures { IfOk result (λ corners. corners ≡ corners_of (map (λ w. w.now) words.now)) }
{
    let mut corners = Vec::new(alloc);
    let mut left = words;
    while let [x, y, rest @ ..] = left {
        let (Some(x), Some(y)) = (number_of(x), number_of(y)) else {
            return Ok(None);
        };
        corners.push(Point { x, y })?;
        left = rest;
    }
    if left.is_empty() {
        Ok(Some(Points::from_vec(corners)))
    } else {
        Ok(None)
    }
}

fn check_form(alloc: Global, args: &[&[u8]]) -> Result<Option<Request>, AllocError>
    ensures request { IfOk result (λ request. request ≡ check_form (map (λ w. w.now) args.now)) }
    ensures directed { IfOk result (λ request. IfSome request IsDirectedRequest) }
{
    let Some((number, words)) = args.split_first() else {
        return Ok(None);
    };
    let Some(number) = count_of(number) else {
        return Ok(None);
    };
    let Some(corners) = corners_of(alloc, words)? else {
        return Ok(None);
    };
    Ok(Some(Request::Check { number, corners }))
}

/// The request of a valid form, or no valid line.
fn formed(request: Option<Request>) -> Request
    requires { IfSome request IsDirectedRequest }
    ensures request { result ≡ formed request }
    ensures directed { IsDirectedRequest result }
{
    match request {
        Some(request) => request,
        None => Request::Do(Command::Bad),
    }
}

/// The request with its name and the words after it, if it is one of these. The only error is out of memory.
pub(crate) fn named_request(alloc: Global, line: &[u8]) -> Result<Option<Request>, AllocError>
    ensures request { IfOk result (λ request. request ≡ named_request (words line.now)) }
    ensures directed { IfOk result (λ request. IfSome request IsDirectedRequest) }
{
    let words = words(alloc, line)?;
    let Some((name, args)) = words.split_first() else {
        return Ok(None);
    };
    if *name == b"reconnect".as_slice() {
        Ok(Some(formed(reconnect_form(args))))
    } else if *name == b"check".as_slice() {
        Ok(Some(formed(check_form(alloc, args)?)))
    } else {
        Ok(None)
    }
}
