// What is read of a site.
ghost use Rattle.std.specs.Prelude.{◌≡◌, ◌≤◌, ◌<◌, true, length};
ghost use Rattle.page_store.specs.Batch.{is_map};
ghost use Rattle.cow_tree.specs.Compacting.{most_pairs};

use page_store::{Banner, Pair};

/// All of a site: its pairs, the banner that it stands under, and how many items it has.
#[derive(Drop)]
pub(crate) struct SiteRead {
    pub(crate) pairs: Vec<Pair>,
    pub(crate) banner: Banner,
    pub(crate) items: u64,
    ghost map: { is_map pairs.items ≡ true },
    ghost few: { length pairs.items ≤ most_pairs },
    ghost port: { 0 < banner.port },
}
