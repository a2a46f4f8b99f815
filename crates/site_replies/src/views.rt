// Documents by the view that is asked for, and items that have moved.
ghost use Rattle.std.specs.Prelude.{◌≡◌, true, length, IfOk, IfErr, IsTrue, is_some};
ghost use Rattle.std.specs.List.{position};
ghost use Rattle.std.specs.Option.{option_map};
ghost use Rattle.host_types.specs.Site.{Site};
ghost use Rattle.host_types.specs.Card.{card_at, viewed_at};
ghost use Rattle.host_types.specs.Visible.{visible};
ghost use Rattle.host_types.specs.SiteState.{HasRead, LacksTheSame, IsReadFault};
ghost use Rattle.host_types.specs.CrashStates.{AddsNone};
ghost use Rattle.request_reader.specs.Seen.{plus_of};
ghost use Rattle.site_replies.specs.Reads.{ReadsSite};
ghost use Rattle.site_replies.specs.Lengths.{AreLengths};
ghost use Rattle.site_replies.specs.Replies.{view_head, reply_bytes, IsSized};
ghost use Rattle.site_replies.specs.Reply as spec;

use crate::answered::{Reply, ViewReply};
use crate::documents::{is_sent_as_text, requested_by, requested_place, sent};
use crate::looking::card_at;
use crate::posts::error_reply_of;
use host_types::{Bytes, CardBody, CardView, Kind, Selector, SiteFault, Stamp};
use plus_blocks::head;
use request_reader::Plus;
use std::alloc::{AllocError, Global};
use text_writer::{ErrorText, error_reply, item_line};
use word_search::SearchKeeper;

/// Where an item that has moved went, one step on.
#[tactic(auto, using(crate::proofs::AfterReads::same_address))]
pub fn moved_reply<S: SearchKeeper>(
    alloc: Global,
    site: &mut S,
    is_plus: bool,
    target: &Selector,
    now: Stamp,
) -> Result<Bytes, SiteFault>
    ensures reply { ReadsSite S.site_state S.lacks S.crash_states site.old site.new result (λ s reply. reply ≡ spec.moved_reply (visible s now) is_plus target.now (card_at (visible s now) target.now)) }
{
    let Some(card) = card_at(site, target, now)? else {
        return Ok(error_reply_of(alloc, is_plus, ErrorText::ItemNotFound)?);
    };
    if let CardBody::Moved { .. } = &card.body {
        return Ok(error_reply_of(alloc, is_plus, ErrorText::ItemNotFound)?);
    }
    let line = item_line(alloc, &site.front(), target, &card)?;
    Ok(error_reply(alloc, is_plus, ErrorText::ItemHasMoved, line.as_slice())?)
}

/// The head of a view that has so many bytes, where Gopher+ asked for it.
fn view_head(alloc: Global, is_plus: bool, is_text: bool, size: u32) -> Result<Bytes, AllocError>
    ensures { IfOk result (λ head. head ≡ view_head is_plus is_text size) }
{
    if !is_plus {
        return Ok(Bytes::from(Vec::new(alloc)));
    }
    if is_text {
        return head(alloc, None);
    }
    head(alloc, Some(size as usize))
}

/// The view at a place, which has so many bytes.
fn view_at(
    alloc: Global,
    is_plus: bool,
    selector: &Selector,
    kind: Kind,
    view: usize,
    size: u32,
) -> Result<Reply, AllocError>
    ensures reply { IfOk result (λ reply. (s : Site) → length (viewed_at s selector.now view) ≡ size → reply_bytes s reply ≡ spec.sent is_plus kind (viewed_at s selector.now view)) }
    ensures sized { IfOk result (λ reply. (s : Site) → length (viewed_at s selector.now view) ≡ size → IsSized s reply) }
{
    if size == 0 {
        return Ok(Reply::Whole(sent(alloc, is_plus, kind, Vec::new(alloc))?));
    }
    let is_text = is_sent_as_text(kind);
    Ok(Reply::View(ViewReply {
        head: view_head(alloc, is_plus, is_text, size)?,
        selector: selector.clone()?,
        view,
        size,
        is_text,
    }))
}

/// The view that is asked for, of a document with these: by each site where they are as long as is said.
pub fn view_reply(
    alloc: Global,
    selector: &Selector,
    kind: Kind,
    views: &[CardView],
    plus: Option<Plus<'_>>,
) -> Result<Reply, AllocError>
    ensures reply { IfOk result (λ reply. (s : Site) → AreLengths views.now (viewed_at s selector.now) → reply_bytes s reply ≡ spec.view_reply s (is_some (option_map plus_of plus.entry)) selector.now kind (position (spec.is_requested (spec.requested_of (option_map plus_of plus.entry))) views.now)) }
    ensures sized { IfOk result (λ reply. (s : Site) → AreLengths views.now (viewed_at s selector.now) → IsSized s reply) }
{
    let is_plus = plus.is_some();
    let Some(place) = requested_place(requested_by(plus), views) else {
        let error = error_reply_of(alloc, is_plus, ErrorText::ViewNotFound)?;
        return Ok(Reply::Whole(error));
    };
    let size = views[place].length;
    view_at(alloc, is_plus, selector, kind, place, size)
}
