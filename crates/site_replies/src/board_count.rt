// What a post finds on its board behind others.
ghost use Rattle.std.specs.Prelude.{◌≡◌, ◌≤◌, length};
ghost use Rattle.std.specs.Option.{option_map};
ghost use Rattle.site_replies.specs.LaterReply.{one_on, posts_on, counted_card};

use host_types::{Card, CardBody, Change, Selector, Stamp};

/// One, where a change is a post on a board, or else none.
fn one_on(board: &Selector, change: &Change) -> u64
    ensures count { result ≡ one_on board.now change.now }
    ensures most { result ≤ 1 }
{
    match change {
        Change::Post { board: on, .. } if board == on => 1,
        _ => 0,
    }
}

/// How many of some changes are posts on a board.
pub fn posts_on(board: &Selector, changes: &[(Change, Stamp)]) -> u64
    ensures { result ≡ posts_on board.now changes.now }
{
    let mut count = 0;
    for change in changes {
        count += one_on(board, &change.0);
    }
    count
}

/// The card of a board that has counted on by so many, up to the greatest number.
pub fn counted_card(card: Option<Card>, count: u64) -> Option<Card>
    ensures { result ≡ option_map (counted_card count) card }
{
    let Card {
        title,
        stamp,
        until,
        summary,
        body,
    } = card?;
    let body = match body {
        CardBody::Board { cap, next } => CardBody::Board {
            cap,
            next: next.saturating_add(count),
        },
        other => other,
    };
    Some(Card {
        title,
        stamp,
        until,
        summary,
        body,
    })
}
