//! A site over any key-value store.
#![tactic(auto)]

mod cards;
mod compacting;
mod disk_site;
mod fault;
mod figures;
mod filter_search;
mod item_lookup;
mod items;
mod laws;
mod likely;
mod longest;
mod opening;
mod parts;
mod pinned_chunks;
mod read_pairs;
mod records;
mod search_calls;
mod searching;
mod site_calls;
mod site_walk;
mod to_site_fault;
mod upgrading;
mod value_lookup;
mod walking;
mod whole_layout;
mod word_keys;
mod word_walk;
mod writing;

pub use disk_site::DiskSite;
pub use fault::SiteOpenFault;
pub use figures::SiteFigures;
pub use filter_search::search_by_filter;
pub use laws::deep_comes_before_full;
pub use opening::VERSION;
pub use site_pairs::first_pairs;
