// A template, which contracts see as its tree.
use crate::node::Node;
use std::marker::Model;

/// A template: a list of nodes.
#[derive(Debug, Drop)]
pub struct Template {
    pub nodes: Vec<Node>,
}

impl Model for Template {
    ghost use Rattle.hk_template.specs.Tree.{Nodes};
    ghost use Rattle.hk_template.specs.TreeCode.{tree_code};
    ghost use Rattle.hk_template.specs.View.{nodes_view};

    ghost Value = { Nodes };

    ghost coded = { tree_code };

    ghost view = { λ t. nodes_view t.nodes.items };
}
