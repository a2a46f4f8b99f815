// The leaves of pairs that come one by one.
ghost use Rattle.std.specs.Prelude.{◌≡◌, ◌+◌, ◌≤◌, ◌∷◌, ◌++◌, [], List, IsTrue, IfOk, OnOk};
ghost use Rattle.page_store.specs.Pages.{Pair};
ghost use Rattle.page_store.specs.Batch.{is_pair};
ghost use Rattle.page_store.specs.Flat.{entry_size};
ghost use Rattle.tree_nodes.specs.Tree.{none};
ghost use Rattle.tree_nodes.specs.NodeView.{others_view};
ghost use Rattle.tree_loading.specs.Filled.{leaves_of};
ghost use Rattle.tree_loading.specs.Full.{rows_joined};
ghost use Rattle.tree_loading.specs.Rows.{leaf_before, leaves_with};

use common_types::Bytes;
use page_store::Pair;
use std::alloc::{AllocError, Global};
use std::mem;
use tree_nodes::Node;

/// How many bytes of a page are for its entries.
const ENTRY_ROOM: usize = 4072;

/// Leaves, each with its first key, and the pairs of the leaf that is being filled, which has some bytes left.
#[derive(Drop)]
pub(crate) struct LeafRow {
    row: Vec<(Bytes, Node)>,
    here: Vec<Pair>,
    room: usize,
}

/// How many bytes a pair takes in a page.
#[tactic(auto, unfolding(page_store::specs::Batch::is_value))]
fn entry_size(pair: &Pair) -> usize
    requires { IsTrue (is_pair pair.now) }
    ensures size { result ≡ entry_size pair.now }
    ensures fits { result ≤ ENTRY_ROOM }
{
    4 + pair.key().len() + pair.value().len()
}

/// Adds a leaf of these pairs, where there are any.
fn put_leaf(alloc: Global, row: &mut Vec<(Bytes, Node)>, pairs: Vec<Pair>) -> Result<(), AllocError>
    ensures { OnOk result (others_view row.new.items ≡ rows_joined (others_view row.old.items) (leaf_before pairs.items none)) }
{
    let Some(first) = pairs.first() else {
        return Ok(());
    };
    let key = Bytes::from_slice(alloc, first.key())?;
    row.push((key, Node::Leaf(pairs)))?;
    Ok(())
}

impl LeafRow {
    /// No leaves yet.
    pub(crate) fn new(alloc: Global) -> Self
        ensures { (pairs : List Pair) → leaves_with result pairs ≡ leaves_of pairs }
    {
        LeafRow {
            row: Vec::new(alloc),
            here: Vec::new(alloc),
            room: 0,
        }
    }

    /// Adds the pair that comes next.
    pub(crate) fn add(&mut self, alloc: Global, pair: Pair) -> Result<(), AllocError>
        requires { IsTrue (is_pair pair) }
        ensures { OnOk result ((pairs : List Pair) → leaves_with self.new pairs ≡ leaves_with self.old (pair ∷ pairs)) }
    {
        let size = entry_size(&pair);
        if size <= self.room {
            self.room -= size;
            self.here.push(pair)?;
            return Ok(());
        }
        self.close(alloc)?;
        self.room = ENTRY_ROOM - size;
        self.here.push(pair)?;
        Ok(())
    }

    /// Ends the leaf that is being filled.
    fn close(&mut self, alloc: Global) -> Result<(), AllocError>
        ensures row { OnOk result (others_view self.new.row.items ≡ rows_joined (others_view self.old.row.items) (leaf_before self.old.here.items none)) }
        ensures here { OnOk result (self.new.here.items ≡ []) }
    {
        let here = mem::replace(&mut self.here, Vec::new(alloc));
        put_leaf(alloc, &mut self.row, here)
    }

    /// All leaves.
    pub(crate) fn finish(self, alloc: Global) -> Result<Vec<(Bytes, Node)>, AllocError>
        ensures { IfOk result (λ row. others_view row.items ≡ leaves_with self []) }
    {
        let mut row = self;
        row.close(alloc)?;
        let LeafRow { row, .. } = row;
        Ok(row)
    }
}
