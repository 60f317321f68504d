//! The choices whose stubs begin and end a line.
ghost use Rattle.std.specs.Prelude.{◌≡◌, ◌↔◌, ◌≤◌, length, nat_le, IsTrue, MatchOption, if◌then◌else◌};
ghost use Rattle.walk_model.specs.Choice.{AreChoices, IsChoice, stub_length};
ghost use Rattle.walk_model.specs.Legal.{Arrives, Leaves};
ghost use Rattle.walk_model.specs.Line.{walk_through};
ghost use Rattle.route_check.specs.Line.{IsLineFrom};
ghost use Rattle.route_check.specs.Choices.{FitsRun, IsCheapestIfAny};

use crate::run::{first_run, last_run};
use plane_geom::{Dir, Point};
use walk_model::Choice;

/// A cheapest choice whose stub begins the line.
pub fn start_choice(choices: &[Choice], first: Point, rest: &[Point]) -> Option<Choice>
    requires choices { AreChoices choices.now }
    requires line { IsLineFrom first rest.now }
    ensures { IsCheapestIfAny (Leaves (walk_through first rest.now)) choices.now result }
{
    let run = first_run(first, rest);
    cheapest(choices, first, run.heading, run.length)
}

/// A cheapest choice whose reversed stub ends the line, within its last `left` steps.
pub fn end_choice(choices: &[Choice], first: Point, rest: &[Point], left: u64) -> Option<Choice>
    requires choices { AreChoices choices.now }
    requires line { IsLineFrom first rest.now }
    ensures { IsCheapestIfAny (λ c. Arrives (walk_through first rest.now) c × (stub_length c ≤ left))
        choices.now result }
{
    let run = last_run(first, rest);
    let last = rest.last().copied().unwrap_or(first);
    cheapest(choices, last, run.heading.opposite(), run.length.min(left))
}

/// A cheapest choice of this pin in this direction whose stub has at most `most` steps.
fn cheapest(choices: &[Choice], pin: Point, dir: Dir, most: u64) -> Option<Choice>
    requires { AreChoices choices.now }
    ensures { IsCheapestIfAny (FitsRun pin dir most) choices.now result }
{
    let mut best: Option<Choice> = None;
    for &choice in choices {
        if fits(&choice, pin, dir, most) {
            best = Some(cheaper(best, choice));
        }
    }
    best
}

/// The cheaper of the two, and the first if they cost the same.
fn cheaper(best: Option<Choice>, choice: Choice) -> Choice
    ensures { MatchOption best (result ≡ choice)
        (λ b. result ≡ (if nat_le b.cost choice.cost then b else choice)) }
{
    match best {
        Some(best) if best.cost <= choice.cost => best,
        _ => choice,
    }
}

/// Whether the choice is of this pin in this direction, with a stub of at most `most` steps.
fn fits(choice: &Choice, pin: Point, dir: Dir, most: u64) -> bool
    requires { IsChoice choice.now }
    ensures { IsTrue result ↔ FitsRun pin dir most choice.now }
{
    choice.pin == pin && choice.dir == dir && choice.pin.distance(choice.port) <= most
}
