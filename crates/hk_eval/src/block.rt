// Templates whose lists of nodes have several owners.
ghost use Rattle.std.specs.Prelude.{◌≡◌, ◌+◌, ◌^◌, ◌<◌, IfOk, MatchOption, map};
ghost use Rattle.hk_template.specs.Tree.{no_nodes, node};
ghost use Rattle.hk_template.specs.View.{nodes_of};
ghost use Rattle.hk_eval.specs.Blocks.{block_nodes, part_node, nodes_from};

use hk_base::{NoMemory, Text};
use std::alloc::Global;
use std::sync::Arc;

/// A node of a template. The lists of nodes inside it have several owners.
#[derive(Drop)]
#[cycle(part)]
pub enum Part {
    Text(Text),
    Dollar,
    Key(Text),
    If {
        key: Text,
        yes: Block,
        no: Option<Block>,
    },
    For {
        key: Text,
        each: Block,
        sep: Option<Block>,
    },
    Partial(Text),
}

/// One of several owners of a list of nodes.
#[derive(Drop)]
#[cycle(part)]
pub struct Block {
    parts: Arc<Vec<Part>, Global>,
}

impl Block {
    /// The first owner of these nodes. `NoMemory` only for want of memory. Constant.
    pub(crate) fn new(alloc: Global, parts: Vec<Part>) -> Result<Block, NoMemory>
        ensures { IfOk result (λ b. block_nodes b ≡ nodes_of (map part_node parts.items)) }
    {
        match Arc::new(alloc, parts) {
            Ok(parts) => Ok(Block { parts }),
            Err(_) => Err(NoMemory),
        }
    }

    /// One more owner of the same nodes. A refusal counts as want of memory. Constant.
    pub(crate) fn try_clone(&self) -> Result<Block, NoMemory>
        ensures { IfOk result (λ b. block_nodes b ≡ block_nodes self.now) }
    {
        match Arc::try_clone(&self.parts) {
            Ok(parts) => Ok(Block { parts }),
            Err(_) => Err(NoMemory),
        }
    }

    /// The node at a place, if there is one. Constant.
    pub(crate) fn part(&self, at: usize) -> Option<&Part>
        ensures { MatchOption result (nodes_from at (block_nodes self.now) ≡ no_nodes)
            (λ p. (at + 1 < 2 ^ 64) × (nodes_from at (block_nodes self.now) ≡ node (part_node p.now) (nodes_from (at + 1) (block_nodes self.now)))) }
    {
        if at < self.parts.len() {
            Some(&self.parts[at])
        } else {
            None
        }
    }
}
