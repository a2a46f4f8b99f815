// Posts by forms.
ghost use Rattle.std.specs.Prelude.{◌≡◌, ◌≤◌, true, length, IfOk, IfErr, IfSome, IsTrue};
ghost use Rattle.host_types.specs.Card.{card_of};
ghost use Rattle.host_types.specs.Visible.{visible};
ghost use Rattle.host_types.specs.SiteState.{HasRead, LacksTheSame, IsReadFault};
ghost use Rattle.host_types.specs.CrashStates.{AddsNone};
ghost use Rattle.host_types.specs.Site.{text_item};
ghost use Rattle.host_types.specs.declared.site_fault.SiteFault.TheVariants.{Memory as OutOfMemory};
ghost use Rattle.site_replies.specs.Reads.{ReadsSite};
ghost use Rattle.site_replies.specs.LaterReply.{later_post_reply, later_form_reply};
ghost use Rattle.site_replies.specs.PostReply.{stored_as, reply_by_card};
ghost use Rattle.site_replies.specs.Replies.{whole, PostsNoView};
ghost use Rattle.request_reader.specs.Seen.{request_of};
ghost use Rattle.site_replies.specs.Reply as spec;

use crate::answered::{Answered, Reply, without_post};
use crate::board_count::{counted_card, posts_on};
use crate::documents::as_text;
use crate::looking::card_at;
use ask_forms::{AskFault, Post, post_of, read_answers};
use host_types::{
    Address, Bytes, Card, CardBody, Change, Item, LineList, MOST_POST_BYTES, QuestionList,
    Selector, SiteFault, Stamp, Title,
};
use request_reader::Request;
use std::alloc::{AllocError, Global};
use text_writer::{ErrorText, error_reply, item_line, menu};
use word_search::SearchKeeper;

/// A reply that tells an error and names no new place.
pub fn error_reply_of(alloc: Global, is_plus: bool, error: ErrorText) -> Result<Bytes, AllocError>
    ensures { IfOk result (λ reply. reply ≡ spec.error_reply_of is_plus error) }
{
    error_reply(alloc, is_plus, error, &[])
}

/// The card of a post.
#[tactic(auto, using(crate::proofs::Posted::is_short))]
fn post_card(alloc: Global, title: &Title, text: &Bytes, now: Stamp) -> Result<Card, AllocError>
    requires { length text.now ≤ MOST_POST_BYTES }
    ensures { IfOk result (λ card. card ≡ card_of (text_item title.now now text.now)) }
{
    let item = Item::text(alloc, title.clone()?, now, text.clone()?)?;
    item.card(alloc)
}

/// The post of a board by its number, and the reply to its sender; none where its selector would be too long.
fn stored_as(
    alloc: Global,
    address: &Address<'_>,
    board: &Selector,
    number: u64,
    post: Post,
    now: Stamp,
) -> Result<Option<Answered>, AllocError>
    requires { length post.text ≤ MOST_POST_BYTES }
    ensures { IfOk result (λ o. IfSome o (λ answered. answered ≡ whole (stored_as address.now now board.now number post.title post.text))) }
{
    let Some(selector) = Selector::of_post(alloc, board, number)? else {
        return Ok(None);
    };
    let card = post_card(alloc, &post.title, &post.text, now)?;
    let mut lines = LineList::new(alloc);
    lines.push(item_line(alloc, address, &selector, &card)?)?;
    let bytes = as_text(alloc, true, menu(alloc, &lines)?)?;
    let Post { title, text } = post;
    let change = Change::Post {
        board: board.clone()?,
        title,
        text,
    };
    Ok(Some(Answered {
        reply: Reply::Whole(bytes),
        post: Some(change),
    }))
}

/// The reply to the sender of a post, by the card of what stands at its board's selector.
fn reply_by_card(
    alloc: Global,
    address: &Address<'_>,
    card: Option<Card>,
    board: &Selector,
    post: Post,
    now: Stamp,
) -> Result<Answered, SiteFault>
    requires { length post.text ≤ MOST_POST_BYTES }
    ensures reply { IfOk result (λ answered. answered ≡ whole (reply_by_card address.now now board.now post.title post.text card)) }
    ensures fault { IfErr result (λ e. e ≡ OutOfMemory) }
{
    let Some(
        Card {
            body: CardBody::Board { next, .. },
            ..
        },
    ) = card
    else {
        return Ok(without_post(error_reply_of(alloc, true, ErrorText::BoardNotFound)?));
    };
    if next == u64::MAX {
        return Ok(without_post(error_reply_of(alloc, true, ErrorText::BoardIsFull)?));
    }
    match stored_as(alloc, address, board, next, post, now)? {
        Some(answered) => Ok(answered),
        None => Err(SiteFault::Memory),
    }
}

/// The reply to the sender of a post behind others, and the post where it is a right one.
#[tactic(auto, using(crate::proofs::LaterReplies::later_too_long, crate::proofs::LaterReplies::later_by_card, crate::proofs::AfterReads::same_address))]
fn post_reply<S: SearchKeeper>(
    alloc: Global,
    site: &mut S,
    board: &Selector,
    post: Post,
    before: &[(Change, Stamp)],
    now: Stamp,
) -> Result<Answered, SiteFault>
    ensures reply { ReadsSite S.site_state S.lacks S.crash_states site.old site.new result (λ s answered. answered ≡ whole (later_post_reply (visible s now) before.now now board.now post.title post.text)) }
    ensures drawn { IfOk result (λ answered. PostsNoView answered.reply answered.post) }
{
    if post.text.len() > MOST_POST_BYTES {
        return Ok(without_post(error_reply_of(alloc, true, ErrorText::AnswersDoNotFit)?));
    }
    let card = card_at(site, board, now)?;
    let counted = counted_card(card, posts_on(board, before));
    reply_by_card(alloc, &site.front(), counted, board, post, now)
}

/// The reply to answers of a form behind some posts, and the post that they make.
pub fn form_reply<S: SearchKeeper>(
    alloc: Global,
    site: &mut S,
    board: &Selector,
    questions: &QuestionList,
    request: Request<'_>,
    before: &[(Change, Stamp)],
    now: Stamp,
) -> Result<Answered, SiteFault>
    ensures reply { ReadsSite S.site_state S.lacks S.crash_states site.old site.new result (λ s answered. answered ≡ whole (later_form_reply (visible s now) before.now (request_of request.entry) now board.now questions.now)) }
    ensures drawn { IfOk result (λ answered. PostsNoView answered.reply answered.post) }
{
    let Some(data) = request.data else {
        let bytes = error_reply_of(alloc, request.plus.is_some(), ErrorText::FormNeedsAnswers)?;
        return Ok(without_post(bytes));
    };
    let lines = data.lines(alloc)?;
    match read_answers(alloc, questions, &lines) {
        Ok(answers) => {
            let post = post_of(alloc, questions, &answers)?;
            post_reply(alloc, site, board, post, before, now)
        }
        Err(AskFault::WrongAnswers) => Ok(without_post(error_reply_of(
            alloc,
            true,
            ErrorText::AnswersDoNotFit,
        )?)),
        Err(AskFault::WrongWord) => Ok(without_post(error_reply_of(
            alloc,
            true,
            ErrorText::WrongWord,
        )?)),
        Err(AskFault::Memory) => Err(SiteFault::Memory),
    }
}
