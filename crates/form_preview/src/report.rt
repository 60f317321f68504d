//! The lines of the answers to proposals.
ghost use Rattle.std.specs.Prelude.{◌≡◌, ◌++◌, IfOk, OnOk};
ghost use Rattle.std.specs.List.{list_any};
ghost use Rattle.form_preview.specs.Proposes.{answer_lines, is_refusal, lines_from};

use form_route::edges_routed;
use preview::Previewed;
use report_text::{push_preview_lines, push_refused_preview};
use std::alloc::{AllocError, Global};

/// Appends the lines of the answer to the proposal with the number.
fn push_answer(
    alloc: Global,
    text: &mut Vec<u8>,
    number: u64,
    answer: &Previewed,
) -> Result<(), AllocError>
    ensures { OnOk result (text.new.items ≡ text.old.items ++ answer_lines number answer.now) }
{
    match answer {
        Previewed::Committed {
            scene,
            book,
            searched,
        } => {
            let edges = edges_routed(alloc, scene, book)?;
            push_preview_lines(text, number, *searched, &edges)
        }
        Previewed::Refused { place, fault } => push_refused_preview(text, number, *place, fault),
    }
}

/// The lines of the answers, in order.
pub(crate) fn answers_text(alloc: Global, answers: &[Previewed]) -> Result<Vec<u8>, AllocError>
    ensures { IfOk result (λ text. text.items ≡ lines_from 1 answers.now) }
{
    let mut text = Vec::new(alloc);
    for (index, answer) in answers.iter().enumerate() {
        push_answer(alloc, &mut text, index as u64 + 1, answer)?;
    }
    Ok(text)
}

/// Whether the proposal is refused.
fn is_refusal(answer: &Previewed) -> bool
    ensures { result ≡ is_refusal answer.now }
{
    matches!(answer, Previewed::Refused { .. })
}

/// Whether a proposal is refused.
pub(crate) fn is_any_refused(answers: &[Previewed]) -> bool
    ensures { result ≡ list_any is_refusal answers.now }
{
    answers.iter().any(is_refusal)
}
