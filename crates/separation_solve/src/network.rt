//! The network of a bundle: its links, the places of its nodes, and the flow along the links.

ghost use Rattle.std.specs.Prelude.{◌≡◌, IfOk, length, map, All, OnOk, ◌++◌};
ghost use Rattle.separation_model.specs.Bundle.{IsBundle, IsItem};
ghost use Rattle.separation_model.specs.Gap.{IsGap};
ghost use Rattle.separation_solve.specs.Network.{IsNetworkOf, links_of, lower_links, upper_links, rule_link};

use crate::fraction::Fraction;
use crate::start::start_places;
use bumpalo::Bump;
use separation_model::{Bundle, Item, Rule};
use std::alloc::AllocError;

/// The node `to` is at least the gap to the right of the node `from`.
#[derive(Clone, Copy)]
pub struct Link {
    pub from: usize,
    pub to: usize,
    pub gap: i64,
}

/// Places of a bundle's items for a gap, and the multipliers of its rules and limits as a flow, in
/// the caller's arena.
///
/// The nodes are the items and, last, the wall, which is at 0. The links are the rules, then each
/// item's lower limit, from the wall, and then each item's upper limit, to the wall.
#[derive(Drop)]
pub struct Network<'a> {
    pub links: Vec<Link, &'a Bump>,
    /// The tight links at each node.
    pub tight: Vec<Vec<usize, &'a Bump>, &'a Bump>,
    pub wants: Vec<i64, &'a Bump>,
    pub weights: Vec<u32, &'a Bump>,
    /// Whether left and right are exchanged.
    pub mirrored: bool,
    pub places: Vec<Fraction, &'a Bump>,
    /// Each link's multiplier.
    pub flow: Vec<i128, &'a Bump>,
    /// By how much twice each item's weighted displacement, over its denominator, exceeds the push
    /// of the flow.
    pub excess: Vec<i128, &'a Bump>,
}

impl<'a> Network<'a> {
    ghost use Rattle.std.specs.Prelude.{false};
    ghost use Rattle.separation_solve.specs.Network.{IsSound, items_of};

    /// A network with no flow, whose places meet the bundle.
    pub fn new(bump: &'a Bump, bundle: &Bundle, gap: i64) -> Result<Network<'a>, AllocError>
        requires bundle { IsBundle bundle.now }
        requires gap { IsGap bundle.now gap }
        ensures sound { IfOk result IsSound }
        ensures upright { IfOk result (λ n. n.mirrored ≡ false) }
        ensures of_bundle { IfOk result (IsNetworkOf bundle.now gap) }
    {
        let places = start_places(bump, bundle, gap)?;
        let links = links_of(bump, bundle, gap)?;
        let mut network = Network {
            tight: empty_lists(bump, places.len())?,
            wants: wants_of(bump, &bundle.items)?,
            weights: weights_of(bump, &bundle.items)?,
            mirrored: false,
            flow: vec![in bump; 0; links.len()]?,
            excess: vec![in bump; 0; bundle.items.len()]?,
            links,
            places,
        };
        network.relist()?;
        network.release();
        Ok(network)
    }

    /// The index of the wall.
    pub fn wall(&self) -> usize
        ensures { result ≡ items_of self.now }
    {
        self.wants.len()
    }
}

pub fn wants_of<'a>(bump: &'a Bump, items: &[Item]) -> Result<Vec<i64, &'a Bump>, AllocError>
    ensures { IfOk result (λ v. v.items ≡ map (λ item. item.want) items.now) }
{
    items.iter().map(|item| item.want).collect(bump)
}

fn weights_of<'a>(bump: &'a Bump, items: &[Item]) -> Result<Vec<u32, &'a Bump>, AllocError>
    ensures { IfOk result (λ v. v.items ≡ map (λ item. item.weight) items.now) }
{
    items.iter().map(|item| item.weight).collect(bump)
}

/// The rules, the lower limits and the upper limits as links.
fn links_of<'a>(
    bump: &'a Bump,
    bundle: &Bundle,
    gap: i64,
) -> Result<Vec<Link, &'a Bump>, AllocError>
    requires { IsBundle bundle.now }
    ensures { IfOk result (λ v. v.items ≡ links_of bundle.now gap) }
{
    let mut links = Vec::with_capacity(bump, bundle.rules.len() + 2 * bundle.items.len())?;
    push_rules(&mut links, &bundle.rules, gap)?;
    push_lower_limits(&mut links, &bundle.items)?;
    push_upper_limits(&mut links, &bundle.items)?;
    Ok(links)
}

fn push_rules(links: &mut Vec<Link, &Bump>, rules: &[Rule], gap: i64) -> Result<(), AllocError>
    ensures { OnOk result (links.new.items ≡ links.old.items ++ map (rule_link gap) rules.now) }
{
    for rule in rules {
        links.push(Link {
            from: rule.left as usize,
            to: rule.right as usize,
            gap: rule.asked(gap),
        })?;
    }
    Ok(())
}

fn push_lower_limits(links: &mut Vec<Link, &Bump>, items: &[Item]) -> Result<(), AllocError>
    requires { All IsItem items.now }
    ensures { OnOk result (links.new.items
        ≡ links.old.items ++ lower_links (length items.now) 0 items.now) }
{
    let wall = items.len();
    for (index, item) in items.iter().enumerate() {
        links.push(Link {
            from: wall,
            to: index,
            gap: item.lo,
        })?;
    }
    Ok(())
}

fn push_upper_limits(links: &mut Vec<Link, &Bump>, items: &[Item]) -> Result<(), AllocError>
    requires { All IsItem items.now }
    ensures { OnOk result (links.new.items
        ≡ links.old.items ++ upper_links (length items.now) 0 items.now) }
{
    let wall = items.len();
    for (index, item) in items.iter().enumerate() {
        links.push(Link {
            from: index,
            to: wall,
            gap: -item.hi,
        })?;
    }
    Ok(())
}

fn empty_lists<'a>(
    bump: &'a Bump,
    count: usize,
) -> Result<Vec<Vec<usize, &'a Bump>, &'a Bump>, AllocError>
    ensures { IfOk result (λ v. length v.items ≡ count) }
{
    let mut lists = Vec::with_capacity(bump, count)?;
    for _ in 0..count {
        lists.push(Vec::new(bump))?;
    }
    Ok(lists)
}
