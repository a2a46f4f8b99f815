// The branches over nodes that come one by one.
ghost use Rattle.std.specs.Prelude.{◌≡◌, ◌+◌, ◌≤◌, [], IfOk, OnOk};
ghost use Rattle.tree_nodes.specs.Tree.{Others, none, other};
ghost use Rattle.tree_nodes.specs.NodeView.{tree_of, others_view};
ghost use Rattle.tree_loading.specs.Filled.{branches_of};
ghost use Rattle.tree_loading.specs.Full.{rows_joined};
ghost use Rattle.tree_loading.specs.Rows.{branch_before, branches_with};

use common_types::Bytes;
use std::alloc::{AllocError, Global};
use std::mem;
use tree_nodes::Node;

/// How many bytes of a branch's page are for its children after the first, whose key is left out.
const BRANCH_ROOM: usize = 4066;

/// Branches, each with its first key, and the children of the branch that is being filled, which has some bytes left.
#[derive(Drop)]
pub(crate) struct BranchRow {
    row: Vec<(Bytes, Node)>,
    here: Vec<(Bytes, Node)>,
    room: usize,
}

/// Adds a branch of these children, where there are any.
fn put_branch(
    alloc: Global,
    row: &mut Vec<(Bytes, Node)>,
    children: Vec<(Bytes, Node)>,
) -> Result<(), AllocError>
    ensures { OnOk result (others_view row.new.items ≡ rows_joined (others_view row.old.items) (branch_before (others_view children.items) none)) }
{
    if children.is_empty() {
        return Ok(());
    }
    let mut others = children;
    let (key, first) = others.remove(0);
    let first = Box::new(alloc, first)?;
    row.push((key, Node::Branch(first, others)))?;
    Ok(())
}

impl BranchRow {
    /// No branches yet.
    pub(crate) fn new(alloc: Global) -> Self
        ensures { (others : Others) → branches_with result others ≡ branches_of others }
    {
        BranchRow {
            row: Vec::new(alloc),
            here: Vec::new(alloc),
            room: 0,
        }
    }

    /// Adds the node that comes next, with its first key.
    pub(crate) fn add(&mut self, alloc: Global, key: Bytes, node: Node) -> Result<(), AllocError>
        ensures { OnOk result ((others : Others) → branches_with self.new others ≡ branches_with self.old (other key (tree_of node) others)) }
    {
        let size = 6 + key.as_slice().len();
        if size <= self.room {
            self.room -= size;
            self.here.push((key, node))?;
            return Ok(());
        }
        self.close(alloc)?;
        self.room = BRANCH_ROOM;
        self.here.push((key, node))?;
        Ok(())
    }

    /// Ends the branch that is being filled.
    fn close(&mut self, alloc: Global) -> Result<(), AllocError>
        ensures row { OnOk result (others_view self.new.row.items ≡ rows_joined (others_view self.old.row.items) (branch_before (others_view self.old.here.items) none)) }
        ensures here { OnOk result (self.new.here.items ≡ []) }
    {
        let here = mem::replace(&mut self.here, Vec::new(alloc));
        put_branch(alloc, &mut self.row, here)
    }

    /// All branches.
    pub(crate) fn finish(self, alloc: Global) -> Result<Vec<(Bytes, Node)>, AllocError>
        ensures { IfOk result (λ row. others_view row.items ≡ branches_with self none) }
    {
        let mut row = self;
        row.close(alloc)?;
        let BranchRow { row, .. } = row;
        Ok(row)
    }
}
