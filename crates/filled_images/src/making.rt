// What is to be written for an image of some pairs in filled pages, worked out whole before anything is.
ghost use Rattle.std.specs.Prelude.{◌≡◌, ◌≤◌, ◌<◌, ◌+◌, ℕ, List, true, IfOk, IfErr, OnOk, length};
ghost use Rattle.page_store.specs.Sizes.{least_pages, most_pages};
ghost use Rattle.page_store.specs.Flat.{numbers_from};
ghost use Rattle.page_store.specs.Pages.{Pair as PairValue};
ghost use Rattle.page_store.specs.Batch.{is_map};
ghost use Rattle.page_store.specs.declared.banner.Banner.{Banner as BannerValue};
ghost use Rattle.tree_nodes.specs.Growth.{owned_under};
ghost use Rattle.tree_nodes.specs.OwnedTrees.{state_of};
ghost use Rattle.cow_tree.specs.Compacting.{most_pairs};
ghost use Rattle.filled_images.specs.FilledImages.{pages_for, RootFits, IsTreeMade, IsImageOf, IsNotMade};

use crate::FilledImage;
use page_store::{
    Banner, KeeperFault, LEAST_PAGES, MOST_PAGES, NewPage, Pair, Root, Slot, slot_page,
};
use std::alloc::{AllocError, Global};
use tree_loading::filled_tree;
use tree_nodes::OwnedTree;
use tree_pages::write_node;

/// The generation of a new image.
const FIRST_GENERATION: u64 = 1;

/// The first page that is no root slot.
const FIRST_PAGE: u32 = 2;

/// So many numbers of pages, from the first that is no root slot.
fn page_numbers(alloc: Global, count: u32) -> Result<Vec<u32>, AllocError>
    requires { count ≤ 65534 }
    ensures { IfOk result (λ numbers. numbers.items ≡ numbers_from 2 count) }
{
    let mut numbers = Vec::new(alloc);
    for n in 0..count {
        numbers.push(FIRST_PAGE + n)?;
    }
    Ok(numbers)
}

/// The nodes of a tree as pages of these numbers, and the number of its root's page: 0 where there is no tree.
fn tree_pages(
    alloc: Global,
    tree: &OwnedTree,
    numbers: &[u32],
) -> Result<(u32, Vec<NewPage>), AllocError>
    requires room { owned_under (state_of tree.now).root ≤ length numbers.now }
    requires fits { RootFits (state_of tree.now) }
    ensures { IfOk result (λ made. IsTreeMade numbers.now (state_of tree.now).height (state_of tree.now).root made.1.items made.0) }
{
    let mut pages = Vec::new(alloc);
    let Some(root) = tree.root() else {
        return Ok((0, pages));
    };
    let level = tree.height().saturating_sub(1);
    let page = write_node(alloc, root, level, FIRST_GENERATION, numbers, &mut pages)?;
    Ok((page, pages))
}

impl FilledImage {
    /// What is to be written for an image of so many pages with these pairs under this banner. Nothing is written yet.
    ///
    /// `Small` where the count of pages isn't 16 to 65,536; `Full` where they are too few for the pairs, with how many pages these take, and how many there are but for the root slots. `Memory` may stand in place of `Full` and of success.
    pub fn new(
        alloc: Global,
        count: u32,
        banner: Banner,
        pairs: Vec<Pair>,
    ) -> Result<FilledImage, KeeperFault>
        requires map { is_map pairs.items ≡ true }
        requires few { length pairs.items ≤ most_pairs }
        requires port { 0 < banner.port }
        ensures made { IfOk result (IsImageOf count banner pairs.items) }
        ensures fits { OnOk result ((least_pages ≤ count) × (count ≤ most_pages) × (pages_for pairs.items + 2 ≤ count)) }
        ensures fault { IfErr result (IsNotMade count pairs.items) }
    {
        if count < LEAST_PAGES || count > MOST_PAGES {
            return Err(KeeperFault::Small);
        }
        let keys = pairs.len() as u64;
        let tree = filled_tree(alloc, pairs)?;
        let need = tree.owned_nodes();
        let free = u64::from(count - FIRST_PAGE);
        if need > free {
            return Err(KeeperFault::Full { need, free });
        }
        let numbers = page_numbers(alloc, need as u32)?;
        let (page, pages) = tree_pages(alloc, &tree, &numbers)?;
        let slot = Slot {
            number: 0,
            seal: FIRST_GENERATION,
            root: Root {
                pages: count,
                tree: page,
                height: tree.height(),
                keys,
                banner,
            },
        };
        let root = slot_page(alloc, &slot)?;
        Ok(FilledImage { pages, slot, root })
    }

    /// How many pages the image has.
    pub fn pages(&self) -> u32
        ensures { (count : ℕ) (banner : BannerValue) (pairs : List PairValue) → IsImageOf count banner pairs self.now → result ≡ count }
    {
        self.slot.root.pages
    }

    /// How many of its pages a commit may write.
    pub fn free(&self) -> u64
        ensures { (count : ℕ) (banner : BannerValue) (pairs : List PairValue) → IsImageOf count banner pairs self.now → result + pages_for pairs + 2 ≡ count }
    {
        u64::from(self.slot.root.pages - FIRST_PAGE) - self.pages.len() as u64
    }
}
