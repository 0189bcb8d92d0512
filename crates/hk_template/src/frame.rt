// What the parser holds: the nodes so far and the forms that are open.
ghost use Rattle.std.specs.Prelude.{◌≡◌, OnOk};
ghost use Rattle.hk_template.specs.Tree.{node, no_nodes, joined_nodes};
ghost use Rattle.hk_template.specs.View.{node_view, nodes_view};

use crate::node::Node;
use hk_base::{NoMemory, Text};

/// The head of an open form: the place of its first tag, its key, and the nodes before it in the list around it.
#[derive(Drop)]
pub struct Head {
    pub place: u64,
    pub key: Text,
    pub outer: Vec<Node>,
}

/// An open form. After `else` or `sep` it has the nodes before that tag.
#[derive(Drop)]
pub enum Frame {
    If(Head),
    Else(Head, Vec<Node>),
    For(Head),
    Sep(Head, Vec<Node>),
}

/// The nodes so far of the innermost list, and the open forms, the innermost last.
#[derive(Drop)]
pub struct Parser {
    pub nodes: Vec<Node>,
    pub forms: Vec<Frame>,
}

/// Adds a node at the end.
#[tactic(auto, using(crate::proofs::Nodes::nodes_view_push))]
pub fn push_node(nodes: &mut Vec<Node>, child: Node) -> Result<(), NoMemory>
    ensures { OnOk result (nodes_view nodes.new.items ≡ joined_nodes (nodes_view nodes.old.items) (node (node_view child) no_nodes)) }
{
    nodes.push(child)?;
    Ok(())
}
