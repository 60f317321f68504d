//! The summary of a replay on a generated scene.
ghost use Rattle.std.specs.Prelude.{◌≡◌, ◌++◌, IfOk, OnOk, codes, decimal, string_bytes};
ghost use Rattle.fixed_milli.specs.Milli.{size_text};
ghost use Rattle.form_make.specs.Summary.{summary_line, summary_text};

use std::alloc::{AllocError, Global};

/// The result of a replay on a generated scene.
#[derive(Clone, Copy, Debug, PartialEq, Eq)]
pub struct Summary {
    /// The connectors that have a route.
    pub routed: u64,
    /// The connectors that have none.
    pub unrouted: u64,
    /// The sum of the costs of the routes, in thousandths.
    pub cost: u128,
    /// The sum of their bends.
    pub bends: u64,
    /// The number of searches.
    pub searched: u64,
}

/// Appends a line with a number.
fn push_line(text: &mut String, name: &str, number: u64) -> Result<(), AllocError>
    ensures { OnOk result (string_bytes text.new ≡ string_bytes text.old ++ summary_line name.now (decimal number)) }
{
    write!(text, "{name} {number}\n")
}

/// Appends the line of the costs.
fn push_cost(text: &mut String, cost: u128) -> Result<(), AllocError>
    ensures { OnOk result (string_bytes text.new ≡ string_bytes text.old ++ summary_line (codes "cost") (size_text cost)) }
{
    write!(text, "cost {}.{:03}\n", cost / 1000, (cost % 1000) as u64)
}

impl Summary {
    /// The seven lines of the summary. The only error is out of memory.
    pub fn text(&self, alloc: Global) -> Result<String, AllocError>
        ensures { IfOk result (λ text. string_bytes text ≡ summary_text self.now) }
    {
        let mut text = String::new(alloc);
        push_line(&mut text, "nodes", 36)?;
        push_line(&mut text, "edges", 48)?;
        push_line(&mut text, "routed", self.routed)?;
        push_line(&mut text, "no route", self.unrouted)?;
        push_cost(&mut text, self.cost)?;
        push_line(&mut text, "bends", self.bends)?;
        push_line(&mut text, "searched", self.searched)?;
        Ok(text)
    }
}
