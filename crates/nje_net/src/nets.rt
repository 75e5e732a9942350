//! Nets: nodes, their lines and their routes.
ghost use Rattle.std.specs.Prelude.{◌≡◌, true};
ghost use Rattle.std.specs.List.{list_all};
ghost use Rattle.nje_net.specs.Numbered.{all_numbered};
ghost use Rattle.nje_net.specs.Nets.{are_routes as are_routes_lem, end_at as end_at_lem, end_in as end_in_lem, goes_by as goes_by_lem, has_route as has_route_lem, is_end as is_end_lem, is_joined as is_joined_lem, is_led as is_led_lem, is_line as is_line_lem, is_net, is_node as is_node_lem, is_node_right as is_node_right_lem, is_none as is_none_lem, name_of_node, name_of_route, no_end as no_end_lem, node_at, takes as takes_lem};

use crate::names::{Named, are_different, has_name, same_name};
use crate::places::item_or;
use mas_types::{List, Name8, Route};

/// The most nodes of a net.
pub const NODES_MOST: usize = 64;

/// The most routes of a node.
const ROUTES_MOST: usize = 63;

/// The lines of a node.
pub const LINES: u8 = 8;

/// Where a line ends.
#[derive(Clone, Copy)]
pub struct End {
    /// The node, counted from 1; 0 where the line leads nowhere.
    pub node: u8,
    /// That node's number of the line, 1 to 8.
    pub line: u8,
}

/// A node.
#[derive(Drop)]
pub struct NetNode {
    /// Its name.
    pub name: Name8,
    /// The lines by which it sends to other nodes, at most 63.
    pub routes: List<Route>,
    /// Where each of its eight lines ends; line 1 is the first.
    pub ends: List<End>,
}

/// A net. Its nodes are numbered from 1.
#[derive(Drop)]
pub struct Net {
    /// The nodes.
    pub nodes: List<NetNode>,
}

impl Named for Route {
    ghost name = { name_of_route };

    fn name(&self) -> Name8 {
        self.name
    }
}

impl Named for NetNode {
    ghost name = { name_of_node };

    fn name(&self) -> Name8 {
        self.name
    }
}

/// Whether the node is there.
pub fn is_node(net: &Net, node: u8) -> bool
    ensures { result ≡ is_node_lem net.now node }
{
    1 <= node && node as usize <= net.nodes.len()
}

/// Whether it is the number of a line.
pub fn is_line(line: u8) -> bool
    ensures { result ≡ is_line_lem line }
{
    1 <= line && line <= LINES
}

/// The node of that number.
pub fn node(net: &Net, node: u8) -> &NetNode
    requires { is_node_lem net.now node ≡ true }
    ensures { result.now ≡ node_at net.now node }
{
    net.nodes.item(node as usize - 1)
}

/// Whether one of the routes has the name.
pub fn has_route(routes: &List<Route>, dest: Name8) -> bool
    ensures { result ≡ has_route_lem routes.now dest }
{
    has_name(routes.as_slice(), dest)
}

/// Whether a route of the name goes by the line.
pub fn goes_by(routes: &List<Route>, line: u8, dest: Name8) -> bool
    ensures { result ≡ goes_by_lem routes.now line dest }
{
    routes
        .as_slice()
        .iter()
        .any(|route| route.line == line && same_name(route.name, dest))
}

/// Whether the node has the name, or a route for it.
pub fn takes(node: &NetNode, dest: Name8) -> bool
    ensures { result ≡ takes_lem node.now dest }
{
    same_name(node.name, dest) || has_route(&node.routes, dest)
}

fn no_end() -> End
    ensures { result ≡ no_end_lem }
{
    End { node: 0, line: 0 }
}

fn end_in(ends: &List<End>, line: u8) -> End
    ensures { result ≡ end_in_lem ends.now line }
{
    item_or(ends.as_slice(), line, no_end())
}

/// Where the line of a node ends.
pub fn end_at(net: &Net, at: u8, line: u8) -> End
    ensures { result ≡ end_at_lem net.now at line }
{
    if !is_node(net, at) {
        return no_end();
    }
    end_in(&node(net, at).ends, line)
}

/// Whether the line leads to no node.
pub fn is_none(end: End) -> bool
    ensures { result ≡ is_none_lem end }
{
    end.node == 0
}

fn is_end(node: usize, line: usize, end: End) -> bool
    ensures { result ≡ is_end_lem node line end }
{
    end.node as usize == node && end.line as usize == line
}

fn is_joined(net: &Net, node: usize, line: usize, end: End) -> bool
    ensures { result ≡ is_joined_lem net.now node line end }
{
    is_none(end)
        || (is_node(net, end.node)
            && is_line(end.line)
            && is_end(node, line, end_at(net, end.node, end.line))
            && !is_end(node, line, end))
}

fn is_led(ends: &List<End>, route: &Route) -> bool
    ensures { result ≡ is_led_lem ends.now route.now }
{
    is_line(route.line) && !is_none(end_in(ends, route.line))
}

fn are_led(node: &NetNode) -> bool
    ensures { result ≡ list_all (is_led_lem node.now.ends) node.now.routes }
{
    node.routes
        .as_slice()
        .iter()
        .all(|route| is_led(&node.ends, route))
}

fn are_routes(node: &NetNode) -> bool
    ensures { result ≡ are_routes_lem node.now }
{
    node.routes.len() <= ROUTES_MOST
        && are_different(node.routes.as_slice())
        && !has_route(&node.routes, node.name)
}

fn are_joined(net: &Net, at: usize, ends: &List<End>) -> bool
    ensures { result ≡ all_numbered (is_joined_lem net.now at) ends.now }
{
    ends.as_slice()
        .iter()
        .enumerate()
        .all(|(place, end)| is_joined(net, at, place + 1, *end))
}

fn is_node_right(net: &Net, at: usize, node: &NetNode) -> bool
    ensures { result ≡ is_node_right_lem net.now at node.now }
{
    are_routes(node)
        && node.ends.len() == LINES as usize
        && are_joined(net, at, &node.ends)
        && are_led(node)
}

fn are_nodes_right(net: &Net) -> bool
    ensures { result ≡ all_numbered (is_node_right_lem net.now) net.now.nodes }
{
    net.nodes
        .as_slice()
        .iter()
        .enumerate()
        .all(|(place, node)| is_node_right(net, place + 1, node))
}

/// Whether it is a net: 1 to 64 nodes of different names; at each at most 63 routes, their names different from each
/// other and from its own; eight lines, each of which leads nowhere or to another line, which leads back to it; and
/// each route goes by a line that leads to a node.
pub fn net_ok(net: &Net) -> bool
    ensures { result ≡ is_net net.now }
{
    1 <= net.nodes.len()
        && net.nodes.len() <= NODES_MOST
        && are_different(net.nodes.as_slice())
        && are_nodes_right(net)
}
