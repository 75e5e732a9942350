//! The CONFIG line.
ghost use Rattle.std.specs.Prelude.{◌≡◌, ◌≤◌, ◌==◌, [], MatchOption, IfOk, IfSome};
ghost use Rattle.std.specs.List.{list_any, slice_split};
ghost use Rattle.mas_types.specs.Ids.{same_name as same_name_lem};

use crate::lines::{count_words, cut, word};
use mas_types::limits::{
    DORMANCY_MOST, GROUPS_MOST, HOLD_MOST, JOBS_LEAST, JOBS_MOST, JOBS_STEP, MEMBERS_MOST,
    OUTPUTS_LEAST, OUTPUTS_MOST, OUTPUTS_STEP, ROUTES_MOST, VOLUMES_MOST, WIRES_MOST,
};
use mas_types::{Config, List, Name8, NoMemory, Route, default_config, read_name, read_number};
use std::alloc::Global;

/// What the keys of a CONFIG line give, none of a key that is not there.
#[derive(Drop)]
pub struct Given {
    /// MEMBERS, 1 to 8.
    pub members: Option<u8>,
    /// JOBS, 16 to 2,048 in steps of 16.
    pub jobs: Option<u16>,
    /// OUTPUTS, 32 to 4,096 in steps of 32.
    pub outputs: Option<u16>,
    /// VOLUMES, 1 to 8.
    pub volumes: Option<u8>,
    /// GROUPS, of each volume, 1 to 4,096.
    pub groups: Option<u16>,
    /// HOLD, in commands, 1 to 9,999.
    pub hold: Option<u16>,
    /// DORMANCY, in tries, 0 to 9,999.
    pub dormancy: Option<u16>,
    /// NODE, the own name.
    pub node: Option<Name8>,
    /// ROUTES, at most 63.
    pub routes: Option<List<Route>>,
}

/// What a CONFIG line says.
#[derive(Drop)]
pub struct Setup {
    /// The configuration; a key that isn't given has its default.
    pub config: Config,
    /// The routes to other nodes.
    pub routes: List<Route>,
}

ghost use Rattle.script_lang.specs.Lines.{words_in};
ghost use Rattle.script_lang.specs.Config.{number_in as number_in_lem, multiple_of as multiple_of_lem, name_in as name_in_lem, halves as halves_lem, route_of as route_of_lem, routes_behind, between_pluses, once as once_lem, with_size as with_size_lem, with_other as with_other_lem, with_routes as with_routes_lem, with_halves, halves_at_equals, nothing_given as nothing_given_lem, config_of as config_of_lem, setup_of as setup_of_lem, are_apart as are_apart_lem, is_sound as is_sound_lem, setup_in as setup_in_lem, configured};

/// A number of 1 to 10 digits from the least to the greatest.
pub(crate) fn number_in(text: &[u8], least: u32, most: u32) -> Option<u32>
    ensures value { result ≡ number_in_lem least most text.now }
    ensures most { IfSome result (λ n. n ≤ most) }
{
    match read_number(text, most) {
        Ok(n) if n >= least => Some(n),
        _ => None,
    }
}

/// A number of 1 to 10 digits from the least to the greatest, which fits one byte.
pub(crate) fn byte_in(text: &[u8], least: u8, most: u8) -> Option<u8>
    ensures { result ≡ number_in_lem least most text.now }
{
    let n = number_in(text, least as u32, most as u32)?;
    Some(n as u8)
}

fn short_in(text: &[u8], least: u16, most: u16) -> Option<u16>
    ensures { result ≡ number_in_lem least most text.now }
{
    let n = number_in(text, least as u32, most as u32)?;
    Some(n as u16)
}

// The number, where it is a multiple of the step.
fn multiple_of(step: u16, number: Option<u16>) -> Option<u16>
    requires { 1 ≤ step }
    ensures { result ≡ multiple_of_lem step number }
{
    match number {
        Some(n) if n % step == 0 => Some(n),
        _ => None,
    }
}

fn name_in(text: &[u8]) -> Option<Name8>
    ensures { result ≡ name_in_lem text.now }
{
    read_name(text).ok()
}

// What stands before such a byte and behind it, where it stands there just once.
fn halves(text: &[u8], at: u8) -> Option<(&[u8], &[u8])>
    ensures { MatchOption result
        (halves_lem (slice_split (λ b. b == at) text.now) ≡ None)
        (λ found. halves_lem (slice_split (λ b. b == at) text.now) ≡ Some (found.0.now, found.1.now)) }
{
    let (front, behind) = cut(text, at);
    let behind = behind?;
    match cut(behind, at) {
        (back, None) => Some((front, back)),
        (_, Some(_)) => None,
    }
}

// NAME:line
fn route_of(text: &[u8]) -> Option<Route>
    ensures { result ≡ route_of_lem text.now }
{
    let (name, line) = halves(text, b':')?;
    let name = name_in(name)?;
    let line = byte_in(line, 1, WIRES_MOST)?;
    Some(Route { name, line })
}

// The routes between plus signs. None where one is no route.
fn routes_in(alloc: Global, value: &[u8]) -> Result<Option<List<Route>>, NoMemory>
    ensures { IfOk result (λ routes. routes ≡ routes_behind [] (between_pluses value.now)) }
{
    let mut routes = List::new(alloc);
    let mut rest = Some(value);
    while let Some(text) = rest {
        let (text, behind) = cut(text, b'+');
        let Some(route) = route_of(text) else {
            return Ok(None);
        };
        routes.push(route)?;
        rest = behind;
    }
    Ok(Some(routes))
}

// A value that is given for the first time.
fn once<T: Drop>(before: Option<T>, value: Option<T>) -> Option<T>
    ensures { result ≡ once_lem before value }
{
    match before {
        Some(_) => None,
        None => value,
    }
}

// A key that says how many there are of something.
fn with_size(given: Given, key: &[u8], value: &[u8]) -> Option<Given>
    ensures { result ≡ with_size_lem given key.now value.now }
{
    let mut given = given;
    if key == b"MEMBERS".as_slice() {
        given.members = Some(once(given.members, byte_in(value, 1, MEMBERS_MOST))?);
    } else if key == b"JOBS".as_slice() {
        let jobs = multiple_of(JOBS_STEP, short_in(value, JOBS_LEAST, JOBS_MOST));
        given.jobs = Some(once(given.jobs, jobs)?);
    } else if key == b"OUTPUTS".as_slice() {
        let outputs = multiple_of(OUTPUTS_STEP, short_in(value, OUTPUTS_LEAST, OUTPUTS_MOST));
        given.outputs = Some(once(given.outputs, outputs)?);
    } else if key == b"VOLUMES".as_slice() {
        given.volumes = Some(once(given.volumes, byte_in(value, 1, VOLUMES_MOST))?);
    } else if key == b"GROUPS".as_slice() {
        given.groups = Some(once(given.groups, short_in(value, 1, GROUPS_MOST))?);
    } else {
        return with_other(given, key, value);
    }
    Some(given)
}

// HOLD, DORMANCY and NODE.
fn with_other(given: Given, key: &[u8], value: &[u8]) -> Option<Given>
    ensures { result ≡ with_other_lem given key.now value.now }
{
    let mut given = given;
    if key == b"HOLD".as_slice() {
        given.hold = Some(once(given.hold, short_in(value, 1, HOLD_MOST))?);
    } else if key == b"DORMANCY".as_slice() {
        given.dormancy = Some(once(given.dormancy, short_in(value, 0, DORMANCY_MOST))?);
    } else if key == b"NODE".as_slice() {
        given.node = Some(once(given.node, name_in(value))?);
    } else {
        return None;
    }
    Some(given)
}

// The routes, where they are given for the first time.
fn with_routes(alloc: Global, given: Given, value: &[u8]) -> Result<Option<Given>, NoMemory>
    ensures { IfOk result (λ with. with ≡ with_routes_lem given value.now) }
{
    let mut given = given;
    if given.routes.is_some() {
        return Ok(None);
    }
    let Some(routes) = routes_in(alloc, value)? else {
        return Ok(None);
    };
    given.routes = Some(routes);
    Ok(Some(given))
}

// key=value
fn with_operand(alloc: Global, given: Given, operand: &[u8]) -> Result<Option<Given>, NoMemory>
    ensures { IfOk result (λ with. with ≡ with_halves given (halves_at_equals operand.now)) }
{
    let Some((key, value)) = halves(operand, b'=') else {
        return Ok(None);
    };
    if key == b"ROUTES".as_slice() {
        return with_routes(alloc, given, value);
    }
    Ok(with_size(given, key, value))
}

fn nothing_given() -> Given
    ensures { result ≡ nothing_given_lem }
{
    Given {
        members: None,
        jobs: None,
        outputs: None,
        volumes: None,
        groups: None,
        hold: None,
        dormancy: None,
        node: None,
        routes: None,
    }
}

// What is not given has its default.
fn setup_of(alloc: Global, given: Given) -> Setup
    ensures { result ≡ setup_of_lem given }
{
    let default = default_config();
    let config = Config {
        members: given.members.unwrap_or(default.members),
        jobs: given.jobs.unwrap_or(default.jobs),
        outputs: given.outputs.unwrap_or(default.outputs),
        volumes: given.volumes.unwrap_or(default.volumes),
        groups: given.groups.unwrap_or(default.groups),
        hold: given.hold.unwrap_or(default.hold),
        dormancy: given.dormancy.unwrap_or(default.dormancy),
        node: given.node.unwrap_or(default.node),
    };
    match given.routes {
        Some(routes) => Setup { config, routes },
        None => Setup {
            config,
            routes: List::new(alloc),
        },
    }
}

fn same_name(one: Name8, other: Name8) -> bool
    ensures { result ≡ same_name_lem one other }
{
    one.0.as_slice() == other.0.as_slice()
}

fn has_route(routes: &[Route], name: Name8) -> bool
    ensures { result ≡ list_any (λ r. same_name_lem name r.name) routes.now }
{
    routes.iter().any(|r| same_name(name, r.name))
}

// No two routes have one name, and none has the own node's.
fn are_apart(own: Name8, routes: &[Route]) -> bool
    ensures { result ≡ are_apart_lem own routes.now }
{
    match routes {
        [] => true,
        [first, rest @ ..] => {
            !same_name(first.name, own) && !has_route(rest, first.name) && are_apart(own, rest)
        }
    }
}

fn is_sound(setup: &Setup) -> bool
    ensures { result ≡ is_sound_lem setup.now }
{
    setup.routes.len() <= ROUTES_MOST && are_apart(setup.config.node, setup.routes.as_slice())
}

// What operands between commas say.
fn setup_in(alloc: Global, operands: &[u8]) -> Result<Option<Setup>, NoMemory>
    ensures { IfOk result (λ setup. setup ≡ setup_in_lem operands.now) }
{
    let mut given = nothing_given();
    let mut rest = Some(operands);
    while let Some(text) = rest {
        let (operand, behind) = cut(text, b',');
        match with_operand(alloc, given, operand)? {
            Some(more) => given = more,
            None => return Ok(None),
        }
        rest = behind;
    }
    let setup = setup_of(alloc, given);
    if is_sound(&setup) {
        Ok(Some(setup))
    } else {
        Ok(None)
    }
}

/// What a line says whose first word is CONFIG. None where it says no configuration.
pub(crate) fn read_setup(alloc: Global, text: &[u8]) -> Result<Option<Setup>, NoMemory>
    ensures { IfOk result (λ setup. setup ≡ configured (words_in text.now)) }
{
    match count_words(text) {
        1 => Ok(Some(setup_of(alloc, nothing_given()))),
        2 => setup_in(alloc, word(text, 1)),
        _ => Ok(None),
    }
}
