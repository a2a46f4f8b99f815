// Laws of trees that are written as pages.
ghost use Rattle.std.specs.Prelude.{IsTrue, ◌≡◌, ◌<◌, ◌≤◌, ◌^◌, ◌+◌, ℕ, suc, [], List, Option, None, length};
ghost use Rattle.page_store.specs.Content.{is_tree_version, Bounds};
ghost use Rattle.page_store.specs.Commit.{numbers};
ghost use Rattle.page_store.specs.declared.commit.NewPage.{NewPage};
ghost use Rattle.page_store.specs.declared.slot.Slot.{Slot};
ghost use Rattle.tree_nodes.specs.Image.{old_of};
ghost use Rattle.tree_nodes.specs.Tree.{Tree, pairs_of, pages_of};
ghost use Rattle.tree_nodes.specs.Valid.{IsValid};
ghost use Rattle.tree_pages.specs.Written.{IsWritten, ArePut, AreTreePages, IsTreePage};
ghost use Rattle.tree_pages.specs.Reached.{IsLater, AreKept, FindsTree, times, reached, HoldsTree};

/// Where the new pages of a tree are written, and the pages of the image that it reaches are as they were, a walk finds the tree.
pub fn a_written_tree_is_found()
    ensures { (tree : Tree) (old now : ℕ → List ℕ) (bounds : Bounds) (generation level : ℕ) (low : List ℕ) (high : Option (List ℕ)) (n : ℕ) (pages : List NewPage) → IsLater bounds generation → level < 2 ^ 16 →
        IsValid (old_of old bounds) level tree low high → IsWritten generation level tree n pages → ArePut now pages → AreTreePages bounds.pages pages → AreKept old now bounds (pages_of tree) →
        FindsTree old now bounds generation level tree low high n pages }
{}

/// Under a slot that names the page of a tree that is found, of so many levels and pairs, stands that tree, where no page is reached twice.
pub fn a_found_tree_is_content()
    ensures { (slot : Slot) (tree : Tree) (old now : ℕ → List ℕ) (bounds : Bounds) (level : ℕ) (pages : List NewPage) → IsTrue (is_tree_version slot.root.banner.version) → slot.root.pages ≡ bounds.pages → slot.root.height ≡ suc level → level ≤ 15 →
        IsTreePage bounds.pages slot.root.tree → slot.root.keys ≡ length (pairs_of (old_of old bounds) tree) → FindsTree old now bounds slot.seal level tree [] None slot.root.tree pages →
        ((m : ℕ) → times m (numbers pages) + times m (reached old bounds tree) ≤ 1) → HoldsTree old now bounds slot tree pages }
{}
