// Replies to requests, from the site as it stands.
ghost use Rattle.std.specs.Prelude.{◌≡◌, true, Some, IfOk, IfErr, IsTrue};
ghost use Rattle.std.specs.Option.{option_map};
ghost use Rattle.host_types.specs.Card.{viewed_at};
ghost use Rattle.host_types.specs.Visible.{visible};
ghost use Rattle.host_types.specs.Counting.{CountsReads};
ghost use Rattle.host_types.specs.SiteState.{HasRead, LacksTheSame, IsReadFault};
ghost use Rattle.host_types.specs.CrashStates.{AddsNone};
ghost use Rattle.request_reader.specs.Seen.{request_of, plus_of};
ghost use Rattle.url_page.specs.Page.{redirect};
ghost use Rattle.host_types.specs.declared.site_fault.SiteFault.TheVariants.{Memory as OutOfMemory};
ghost use Rattle.site_replies.specs.Lengths.{HasLengths};
ghost use Rattle.site_replies.specs.LaterReply.{IsReplyByCard, later_reply};
ghost use Rattle.site_replies.specs.Replies.{answer_of, IsSized, PostsNoView};
ghost use Rattle.site_replies.specs.Reply as spec;

use crate::answered::{Answered, without_post};
use crate::attributes::{entries_reply, item_reply};
use crate::documents::as_bytes;
use crate::looking::card_at;
use crate::menus::{board_reply, menu_reply, search_reply};
use crate::posts::{error_reply_of, form_reply};
use crate::views::{moved_reply, view_reply};
use host_types::{Bytes, Card, CardBody, Change, Selector, SiteFault, Stamp};
use request_reader::{Cause, Plus, Request};
use std::alloc::{AllocError, Global};
use text_writer::ErrorText;
use url_page::{UrlFault, redirect};
use word_search::SearchKeeper;

/// The reply to what is no request.
pub fn bad_reply(alloc: Global, cause: Cause) -> Result<Bytes, AllocError>
    ensures { IfOk result (λ bytes. bytes ≡ spec.bad_reply cause) }
{
    match cause {
        Cause::TooLong => error_reply_of(alloc, false, ErrorText::RequestTooLong),
        Cause::NotUnderstood => error_reply_of(alloc, false, ErrorText::RequestNotUnderstood),
    }
}

/// The page of a link out of gopherspace.
fn page_reply(alloc: Global, is_plus: bool, url: &[u8]) -> Result<Bytes, SiteFault>
    ensures reply { IfOk result (λ reply. reply ≡ spec.page_reply is_plus (redirect url.now)) }
    ensures fault { IfErr result (λ e. e ≡ OutOfMemory) }
{
    match redirect(alloc, url) {
        Ok(page) => Ok(as_bytes(alloc, is_plus, Bytes::from(page))?),
        Err(UrlFault::NotAllowed) => Ok(error_reply_of(alloc, is_plus, ErrorText::UrlNotAllowed)?),
        Err(UrlFault::Memory) => Err(SiteFault::Memory),
    }
}

/// The reply to a request for a link out of gopherspace, which has no attributes.
fn url_reply(alloc: Global, plus: Option<Plus<'_>>, url: &[u8]) -> Result<Bytes, SiteFault>
    ensures reply { IfOk result (λ reply. reply ≡ spec.url_reply (option_map plus_of plus.entry) url.now) }
    ensures fault { IfErr result (λ e. e ≡ OutOfMemory) }
{
    match plus {
        None => page_reply(alloc, false, url),
        Some(Plus::Fetch(_)) => page_reply(alloc, true, url),
        Some(Plus::Attributes(_)) | Some(Plus::EntryAttributes(_)) => {
            Ok(error_reply_of(alloc, true, ErrorText::ItemNotFound)?)
        }
    }
}

/// The reply to a request behind some posts, by the card of what stands at its selector.
fn card_reply<S: SearchKeeper>(
    alloc: Global,
    site: &mut S,
    selector: &Selector,
    request: Request<'_>,
    before: &[(Change, Stamp)],
    now: Stamp,
    card: &Card,
) -> Result<Answered, SiteFault>
    ensures reply { IsTrue (S.site_state site.old).honest → IsReplyByCard (visible (S.site_state site.old).site now) before.now (request_of request.entry) now selector.now card.now result }
    ensures sized { IsTrue (S.site_state site.old).honest → HasLengths card.now.body (viewed_at (visible (S.site_state site.old).site now) selector.now) → IfOk result (λ answered. IsSized (visible (S.site_state site.old).site now) answered.reply) }
    ensures drawn { IfOk result (λ answered. PostsNoView answered.reply answered.post) }
    ensures kept { HasRead (S.site_state site.old) (S.site_state site.new) }
    ensures lacking { LacksTheSame (S.lacks site.old) (S.lacks site.new) }
    ensures no_new_crash_state { IsTrue (S.site_state site.old).honest → AddsNone (S.crash_states site.old) (S.crash_states site.new) }
    ensures fault { IfErr result (IsReadFault true (S.site_state site.old) (S.site_state site.new)) }
    ensures reads { CountsReads result (S.site_state site.old) (S.site_state site.new) }
{
    let is_plus = request.plus.is_some();
    let bytes = match (&card.body, request.plus) {
        // A moved item is reported before attributes are scanned.
        (CardBody::Moved { target }, _) => moved_reply(alloc, site, is_plus, target, now)?,
        (_, Some(Plus::Attributes(names))) => item_reply(alloc, site, names, selector, card)?,
        (body, Some(Plus::EntryAttributes(names))) => {
            entries_reply(alloc, site, names, selector, body, now)?
        }
        (CardBody::Form { board, questions }, _) => {
            return form_reply(alloc, site, board, questions, request, before, now);
        }
        (CardBody::Views(kind, views), plus) => {
            let reply = view_reply(alloc, selector, *kind, views.as_slice(), plus)?;
            return Ok(Answered { reply, post: None });
        }
        (CardBody::Menu(entries), _) => {
            menu_reply(alloc, site, is_plus, entries.as_slice(), now)?
        },
        (CardBody::Board { cap, next }, _) => {
            board_reply(alloc, site, is_plus, selector, *cap, *next, now)?
        }
        (CardBody::Search { scope }, _) => {
            search_reply(alloc, site, is_plus, scope, request.search, now)?
        }
    };
    Ok(without_post(bytes))
}

/// The reply to a request once some posts are made, from the site as it stands before them, and the post that it stores.
#[tactic(auto, unfolding(crate::specs::LaterReply::later_reply_of))]
pub fn later_reply<S: SearchKeeper>(
    alloc: Global,
    site: &mut S,
    request: Request<'_>,
    before: &[(Change, Stamp)],
    now: Stamp,
) -> Result<Answered, SiteFault>
    ensures reply { IsTrue (S.site_state site.old).honest → IfOk result (λ answered. answer_of (S.site_state site.old).site answered ≡ later_reply (S.site_state site.old).site before.now (request_of request.entry) now) }
    ensures sized { IsTrue (S.site_state site.old).honest → IfOk result (λ answered. IsSized (S.site_state site.old).site answered.reply) }
    ensures drawn { IfOk result (λ answered. PostsNoView answered.reply answered.post) }
    ensures kept { HasRead (S.site_state site.old) (S.site_state site.new) }
    ensures lacking { LacksTheSame (S.lacks site.old) (S.lacks site.new) }
    ensures no_new_crash_state { IsTrue (S.site_state site.old).honest → AddsNone (S.crash_states site.old) (S.crash_states site.new) }
    ensures fault { IfErr result (IsReadFault true (S.site_state site.old) (S.site_state site.new)) }
    ensures reads { CountsReads result (S.site_state site.old) (S.site_state site.new) }
{
    if request.selector.starts_with(b"URL:") {
        let bytes = url_reply(alloc, request.plus, &request.selector[4..])?;
        return Ok(without_post(bytes));
    }
    let Ok(selector) = Selector::new(request.selector) else {
        unreachable!()
    };
    let Some(card) = card_at(site, &selector, now)? else {
        let bytes = error_reply_of(alloc, request.plus.is_some(), ErrorText::ItemNotFound)?;
        return Ok(without_post(bytes));
    };
    card_reply(alloc, site, &selector, request, before, now, &card)
}

/// The reply to a request, from the site as it stands, and the post that it stores.
#[tactic(auto, using(crate::proofs::LaterReplies::none_before))]
pub fn reply<S: SearchKeeper>(
    alloc: Global,
    site: &mut S,
    request: Request<'_>,
    now: Stamp,
) -> Result<Answered, SiteFault>
    ensures reply { IsTrue (S.site_state site.old).honest → IfOk result (λ answered. answer_of (S.site_state site.old).site answered ≡ spec.reply (S.site_state site.old).site (request_of request.entry) now) }
    ensures sized { IsTrue (S.site_state site.old).honest → IfOk result (λ answered. IsSized (S.site_state site.old).site answered.reply) }
    ensures drawn { IfOk result (λ answered. PostsNoView answered.reply answered.post) }
    ensures kept { HasRead (S.site_state site.old) (S.site_state site.new) }
    ensures lacking { LacksTheSame (S.lacks site.old) (S.lacks site.new) }
    ensures no_new_crash_state { IsTrue (S.site_state site.old).honest → AddsNone (S.crash_states site.old) (S.crash_states site.new) }
    ensures fault { IfErr result (IsReadFault true (S.site_state site.old) (S.site_state site.new)) }
    ensures reads { CountsReads result (S.site_state site.old) (S.site_state site.new) }
{
    later_reply(alloc, site, request, &[], now)
}
