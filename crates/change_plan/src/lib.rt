//! What a change is to make of a site, found by looking up the items that it touches.
#![tactic(auto)]

mod ahead;
mod all_plans;
mod board_posts;
mod item_lookup;
mod plan;
mod plan_move;
mod plan_post;
mod plan_put;
mod replacement;

pub use all_plans::plan_all;
pub use item_lookup::ItemLookup;
pub use plan::{Plan, plan_change};
pub use replacement::Replacement;
