//! The nodes: the own name, the lines and the routes.
ghost use Rattle.std.specs.Prelude.{◌≡◌, length, Err, IfOk};
ghost use Rattle.mas_types.specs.Limits.{page_bytes};
ghost use Rattle.ckpt_pages.specs.declared.nodes.Nodes.{Nodes as NodesLem};
ghost use Rattle.ckpt_pages.specs.declared.entries.EntryError.TheVariants.{Bad};
ghost use Rattle.ckpt_pages.specs.Nodes.{AreNodes};

use crate::entries::{EntryError, read_entries};
use crate::kinds::name_of;
use lay_bytes::{Field, check_fields};
use mas_types::{LineCount, List, Name8, Route};
use std::alloc::Global;

/// What page 2 says.
#[derive(Drop)]
pub(crate) struct Nodes {
    pub node: Name8,
    pub lines: List<LineCount>,
    pub routes: List<Route>,
}

pub(crate) const NODE_FIELDS: [Field; 3] = [Field::Name, Field::Byte(0, 63), Field::Zeros(119)];

/// Reads the nodes. `Bad` comes exactly where the page is no spelling.
pub(crate) fn read_nodes(alloc: Global, page: &[u8]) -> Result<Nodes, EntryError>
    requires { length page.now ≡ page_bytes }
    ensures found { IfOk result (λ nodes. AreNodes page.now nodes) }
    ensures bad { result ≡ Err Bad → (nodes : NodesLem) → AreNodes page.now nodes → ⊥ }
{
    let (head, rest) = page.split_at(128);
    let Ok(()) = check_fields(&NODE_FIELDS, head) else {
        return Err(EntryError::Bad);
    };
    let (middle, tail) = rest.split_at(896);
    let mut lines = List::new(alloc);
    read_entries(alloc, middle, 8, &mut lines)?;
    let mut routes = List::new(alloc);
    read_entries(alloc, tail, head[8] as usize, &mut routes)?;
    Ok(Nodes {
        node: name_of(&head[..8]),
        lines,
        routes,
    })
}
