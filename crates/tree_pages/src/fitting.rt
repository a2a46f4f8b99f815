// Whether a tree fits its pages.
ghost use Rattle.std.specs.Prelude.{◌↔◌, IsTrue};
ghost use Rattle.tree_nodes.specs.NodeView.{tree_of, others_view};
ghost use Rattle.tree_pages.specs.Written.{AllFit, RowFits};

use common_types::Bytes;
use tree_nodes::{Node, is_writable};

/// Whether each owned node of a tree of a level fits its page, and no branch stands at level 0: `write_node` asks for that. It takes no memory.
#[cycle(fits)]
pub fn fits_pages(node: &Node, level: u16) -> bool
    ensures { IsTrue result ↔ AllFit level (tree_of node.now) }
{
    match node {
        Node::Page(_) => true,
        Node::Leaf(_) | Node::Packed(_) => is_writable(node),
        Node::Branch(first, others) => {
            if level == 0 {
                return false;
            }
            if !is_writable(node) {
                return false;
            }
            if !fits_pages(first, level - 1) {
                return false;
            }
            children_fit(others, level - 1)
        }
    }
}

/// Whether each of these children fits its pages.
#[cycle(fits)]
fn children_fit(children: &[(Bytes, Node)], level: u16) -> bool
    ensures { IsTrue result ↔ RowFits level (others_view children.now) }
{
    for child in children {
        if !fits_pages(&child.1, level) {
            return false;
        }
    }
    true
}
