//! A net of nodes that send jobs to one another over lines, any number of hops far. A node on the way stores a job and
//! forwards it (NJE, Network Job Entry, of z/OS JES2); frames and acknowledgements, their numbers and the rules of
//! custody are this project's own. Over a line frames and acknowledgements may be lost, come again, and come in another
//! order.
#![tactic(auto)]

ghost use Rattle.nje_net.specs.Laws.{NoRunLoses};

mod events;
pub mod examples;
mod holding;
mod names;
mod nets;
mod paths;
mod places;
mod runs;
mod worlds;

pub use nets::{End, NODES_MOST, Net, NetNode, net_ok};
pub use paths::{PathNo, path};
pub use runs::no_net_loses;
pub use worlds::{Arrived, Held, NetAck, NetEvent, NetFrame, NetLine, NetWorld};

/// On every net, whatever the events, each job arrives at most once and at its node, and until then some node holds it.
pub fn no_run_loses()
    ensures { NoRunLoses }
{}
