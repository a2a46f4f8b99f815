// How many posts of one origin come to wait in a minute.
ghost use Rattle.std.specs.Prelude.{◌≡◌, ◌≤◌, ℕ, Bool, ◌&&◌, length, filter};
ghost use Rattle.arrayvec.specs.ArrayVec.{array_vec_len};
ghost use Rattle.daily_server.specs.Origins.{is_same, origin_of};
ghost use Rattle.daily_server.specs.Posts as spec;
ghost use Rattle.daily_server.specs.declared.posts.RecentPost.{RecentPost as Noted};

use crate::crowd::is_same_origin;
use arrayvec::ArrayVec;
use std::net::{IpAddr, Ipv4Addr};

/// For how many seconds a post counts.
const MINUTE: u64 = 60;

/// How many posts are let through in a minute in all, where those of an origin are counted.
pub const MOST_POSTS: usize = 1000;

/// A post that came to wait: of whom, and at which second of a clock that only goes forward.
#[derive(Clone, Copy, Debug, PartialEq, Eq)]
pub struct RecentPost {
    pub from: IpAddr,
    pub at: u64,
}

impl Default for RecentPost {
    fn default() -> Self {
        RecentPost {
            from: IpAddr::V4(Ipv4Addr::UNSPECIFIED),
            at: 0,
        }
    }
}

/// The posts that came to wait of late, in order.
pub type RecentPosts = ArrayVec<RecentPost, MOST_POSTS>;

/// Whether a post counts at a second.
fn is_recent(post: &RecentPost, now: u64) -> bool
    ensures { result ≡ spec.is_recent now post.now }
{
    now.saturating_sub(post.at) < MINUTE
}

/// Only those stay that count at a second.
fn forget(posts: &mut RecentPosts, now: u64)
    ensures recent { posts.new.items ≡ spec.recent now posts.old.items }
    ensures fewer { array_vec_len posts.new ≤ array_vec_len posts.old }
{
    posts.retain(|post| is_recent(post, now));
}

/// How many posts are of the origin of an address.
fn count_of(posts: &[RecentPost], from: IpAddr) -> usize
    ensures { result ≡ length (filter (λ (post : Noted). is_same (origin_of post.from) (origin_of from)) posts.now) }
{
    posts
        .iter()
        .filter(|post| is_same_origin(post.from, from))
        .count()
}

/// A post of an address comes to wait at a second, where its origin has had fewer in the last minute than may be, and all together fewer than 1,000. It answers whether it may.
pub(crate) fn take_post(posts: &mut RecentPosts, from: IpAddr, now: u64, most: u32) -> bool
    ensures may { result ≡ spec.may_post most now from posts.old.items }
    ensures noted { posts.new.items ≡ spec.noted result now from posts.old.items }
{
    forget(posts, now);
    if posts.is_full() || count_of(posts, from) >= most as usize {
        return false;
    }
    posts.push(RecentPost { from, at: now });
    true
}
