//! Paths through a net.
ghost use Rattle.std.specs.Prelude.{◌≡◌, true, ℕ, List, IfOk, IfErr, find, option_copied};
ghost use Rattle.nje_net.specs.declared.paths.PathNo.TheVariants as path_no;
ghost use Rattle.mas_types.specs.Ids.{same_name as same_name_lem};
ghost use Rattle.nje_net.specs.Nets.{is_net, is_node as is_node_lem};
ghost use Rattle.nje_net.specs.Paths.{IsEnd, IsLoop, IsPath, IsUnlessMemory, WhyNoPath, from_first, is_named as is_named_lem, leads_on as leads_on_lem, next_node as next_node_lem, route_line as route_line_lem, was_passed as was_passed_lem};

use crate::names::same_name;
use crate::nets::{Net, end_at, has_route, node};
use mas_types::{List, Name8, NoMemory, Route};
use std::alloc::Global;

/// Why there is no path.
#[derive(Drop)]
pub enum PathNo {
    /// It comes to a node that was passed: the nodes from its first passing on.
    Loop(List<u8>),
    /// It comes to a node that has no route for the name.
    NoRoute(u8),
    /// Out of memory.
    NoMemory,
}

impl From<NoMemory> for PathNo {
    ghost from_gives = { λ _ no. no ≡ path_no.NoMemory };

    fn from(_error: NoMemory) -> Self {
        PathNo::NoMemory
    }
}

/// Whether the node has the name.
pub fn is_named(net: &Net, at: u8, to: Name8) -> bool
    requires { is_node_lem net.now at ≡ true }
    ensures { result ≡ is_named_lem net.now to at }
{
    same_name(node(net, at).name, to)
}

fn leads_on(net: &Net, at: u8, to: Name8) -> bool
    requires { is_node_lem net.now at ≡ true }
    ensures { result ≡ leads_on_lem net.now to at }
{
    has_route(&node(net, at).routes, to)
}

fn route_to(routes: &List<Route>, to: Name8) -> Option<&Route>
    ensures { option_copied result ≡ find (λ r. same_name_lem r.name to) routes.now }
{
    routes
        .as_slice()
        .iter()
        .find(|route| same_name(route.name, to))
}

fn route_line(routes: &List<Route>, to: Name8) -> u8
    ensures { result ≡ route_line_lem routes.now to }
{
    match route_to(routes, to) {
        Some(route) => route.line,
        None => 0,
    }
}

fn next_node(net: &Net, at: u8, to: Name8) -> u8
    requires { is_node_lem net.now at ≡ true }
    ensures { result ≡ next_node_lem net.now to at }
{
    end_at(net, at, route_line(&node(net, at).routes, to)).node
}

fn was_passed(passed: &List<u8>, at: u8) -> bool
    ensures { result ≡ was_passed_lem passed.now at }
{
    passed.as_slice().iter().any(|before| *before == at)
}

// The nodes without those before the first passing of this one.
fn loop_of(passed: List<u8>, at: u8) -> List<u8>
    ensures { result ≡ from_first at passed }
{
    let mut nodes = passed;
    while nodes.len() > 0 && *nodes.item(0) != at {
        let _before = nodes.remove(0);
    }
    nodes
}

/// The nodes that a job passes from a node to the one of the name, both among them. Loop where it comes to a node that
/// it has passed, NoRoute where it comes to one that has no route for the name; at each node it is first seen whether
/// the node has the name, then whether it was passed. NoMemory comes only when out of memory.
pub fn path(alloc: Global, net: &Net, from: u8, to: Name8) -> Result<List<u8>, PathNo>
    requires ok { is_net net.now ≡ true }
    requires there { is_node_lem net.now from ≡ true }
    ensures found { IfOk result (IsPath net.now to from) }
    ensures why { IfErr result (WhyNoPath net.now to from) }
    ensures path { (nodes : List ℕ) → IsPath net.now to from nodes → IsUnlessMemory (Ok nodes) result }
    ensures looped { (nodes : List ℕ) → IsLoop net.now to from nodes → IsUnlessMemory (Err (PathNo.Loop nodes)) result }
    ensures no_route { (n : ℕ) → IsEnd net.now to from n → IsUnlessMemory (Err (PathNo.NoRoute n)) result }
{
    walk(alloc, net, from, to)
}

// From node to node, the nodes passed so far kept.
fn walk(alloc: Global, net: &Net, from: u8, to: Name8) -> Result<List<u8>, PathNo>
    requires ok { is_net net.now ≡ true }
    requires there { is_node_lem net.now from ≡ true }
    ensures found { IfOk result (IsPath net.now to from) }
    ensures why { IfErr result (WhyNoPath net.now to from) }
{
    let mut passed = List::new(alloc);
    let mut at = from;
    'walk: loop {
        if is_named(net, at, to) {
            passed.push(at)?;
            return Ok(passed);
        }
        if was_passed(&passed, at) {
            return Err(PathNo::Loop(loop_of(passed, at)));
        }
        if !leads_on(net, at, to) {
            return Err(PathNo::NoRoute(at));
        }
        passed.push(at)?;
        at = next_node(net, at, to);
    }
}
