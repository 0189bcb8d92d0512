// Makes the shared form of a template.
ghost use Rattle.std.specs.Prelude.{◌≡◌, IfOk};
ghost use Rattle.hk_template.specs.View.{node_view, nodes_view};
ghost use Rattle.hk_eval.specs.Blocks.{block_nodes, part_node};

use crate::block::{Block, Part};
use hk_base::{NoMemory, Text};
use hk_template::{Node, Template};
use std::alloc::Global;

impl Block {
    /// The nodes of a template. `NoMemory` only for want of memory. Linear in the template.
    pub fn of_template(alloc: Global, tree: &Template) -> Result<Block, NoMemory>
        ensures { IfOk result (λ b. block_nodes b ≡ tree.now) }
    {
        share_nodes(alloc, tree.nodes.as_slice())
    }
}

#[cycle(share)]
fn share_nodes(alloc: Global, nodes: &[Node]) -> Result<Block, NoMemory>
    ensures { IfOk result (λ b. block_nodes b ≡ nodes_view nodes.now) }
{
    let mut parts = Vec::with_capacity(alloc, nodes.len())?;
    for node in nodes {
        parts.push(share_node(alloc, node)?)?;
    }
    Block::new(alloc, parts)
}

#[cycle(share)]
fn share_node(alloc: Global, node: &Node) -> Result<Part, NoMemory>
    ensures { IfOk result (λ p. part_node p ≡ node_view node.now) }
{
    match node {
        Node::Text(bytes) => Ok(Part::Text(copied(alloc, bytes)?)),
        Node::Dollar => Ok(Part::Dollar),
        Node::Key(key) => Ok(Part::Key(copied(alloc, key)?)),
        Node::If { key, yes, no } => {
            let key = copied(alloc, key)?;
            let yes = share_nodes(alloc, yes.as_slice())?;
            let no = match no {
                Some(no) => Some(share_nodes(alloc, no.as_slice())?),
                None => None,
            };
            Ok(Part::If { key, yes, no })
        }
        Node::For { key, each, sep } => {
            let key = copied(alloc, key)?;
            let each = share_nodes(alloc, each.as_slice())?;
            let sep = match sep {
                Some(sep) => Some(share_nodes(alloc, sep.as_slice())?),
                None => None,
            };
            Ok(Part::For { key, each, sep })
        }
        Node::Partial(path) => Ok(Part::Partial(copied(alloc, path)?)),
    }
}

fn copied(alloc: Global, text: &Text) -> Result<Text, NoMemory>
    ensures { IfOk result (λ t. t ≡ text.now) }
{
    Text::from_slice(alloc, text.as_slice())
}
