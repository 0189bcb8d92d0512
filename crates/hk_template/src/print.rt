// Prints a template.
ghost use Rattle.std.specs.Prelude.{◌≡◌, ◌++◌, OnOk, IfOk};
ghost use Rattle.hk_template.specs.View.{node_view, nodes_view};
ghost use Rattle.hk_template.specs.Template.{IsPrintable, tree_text, node_text};
ghost use Rattle.hk_template.specs.Parsing.{IsOnlyTree};

use crate::node::Node;
use crate::template::Template;
use hk_base::{NoMemory, Text};
use std::alloc::Global;

/// The text of a template. If the tree is printable, it is the one tree of that text. `NoMemory` only for want of
/// memory. Linear in the text.
pub fn print_template(alloc: Global, tree: &Template) -> Result<Text, NoMemory>
    ensures text { IfOk result (λ text. text ≡ tree_text tree.now) }
    ensures again { IfOk result (λ text. IsPrintable tree.now → IsOnlyTree text tree.now) }
{
    let mut out = Vec::new(alloc);
    print_nodes(&mut out, &tree.nodes)?;
    Ok(Text::from_vec(out))
}

#[cycle(print)]
fn print_node(out: &mut Vec<u8>, node: &Node) -> Result<(), NoMemory>
    ensures { OnOk result (out.new.items ≡ out.old.items ++ node_text (node_view node.now)) }
{
    match node {
        Node::Text(bytes) => out.extend_from_slice(bytes.as_slice())?,
        Node::Dollar => out.extend_from_slice(b"$$")?,
        Node::Key(key) => append(out, b"$", key.as_slice(), b"$")?,
        Node::If { key, yes, no } => {
            append(out, b"$if(", key.as_slice(), b")$")?;
            print_nodes(out, yes.as_slice())?;
            if let Some(no) = no {
                out.extend_from_slice(b"$else$")?;
                print_nodes(out, no.as_slice())?;
            }
            out.extend_from_slice(b"$endif$")?;
        }
        Node::For { key, each, sep } => {
            append(out, b"$for(", key.as_slice(), b")$")?;
            print_nodes(out, each.as_slice())?;
            if let Some(sep) = sep {
                out.extend_from_slice(b"$sep$")?;
                print_nodes(out, sep.as_slice())?;
            }
            out.extend_from_slice(b"$endfor$")?;
        }
        Node::Partial(path) => append(out, b"$partial(\"", path.as_slice(), b"\")$")?,
    }
    Ok(())
}

#[cycle(print)]
fn print_nodes(out: &mut Vec<u8>, nodes: &[Node]) -> Result<(), NoMemory>
    ensures { OnOk result (out.new.items ≡ out.old.items ++ tree_text (nodes_view nodes.now)) }
{
    for node in nodes {
        print_node(out, node)?;
    }
    Ok(())
}

fn append(out: &mut Vec<u8>, front: &[u8], middle: &[u8], end: &[u8]) -> Result<(), NoMemory>
    ensures { OnOk result (out.new.items ≡ out.old.items ++ (front.now ++ (middle.now ++ end.now))) }
{
    out.extend_from_slice(front)?;
    out.extend_from_slice(middle)?;
    out.extend_from_slice(end)?;
    Ok(())
}
