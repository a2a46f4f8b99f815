// What clients find at a selector.
ghost use Rattle.std.specs.Prelude.{◌≡◌};
ghost use Rattle.host_types.specs.Card.{card_at};
ghost use Rattle.host_types.specs.Fronts.{front_at};
ghost use Rattle.host_types.specs.Visible.{visible, card_unless_expired, is_over};
ghost use Rattle.host_types.specs.Site.{item_at};
ghost use Rattle.request_reader.specs.Seen.{request_of};
ghost use Rattle.site_replies.specs.Forms.{is_form_in, is_form_by};
ghost use Rattle.site_replies.specs.Fronts.{front_unless_expired};
ghost use Rattle.site_replies.specs.Reads.{ReadsSite};

use host_types::{Card, CardBody, CardFront, Selector, SiteFault, Stamp, is_over};
use request_reader::Request;
use word_search::SearchKeeper;

/// A card, unless its item has expired.
fn unless_expired(card: Option<Card>, now: Stamp) -> Option<Card>
    ensures { result ≡ card_unless_expired card now }
{
    match card {
        Some(card) if !card.is_expired(now) => Some(card),
        _ => None,
    }
}

/// The card of what stands at a selector, unless it has expired.
#[tactic(auto, using(crate::proofs::VisibleCards::visible_card))]
pub fn card_at<S: SearchKeeper>(
    site: &mut S,
    selector: &Selector,
    now: Stamp,
) -> Result<Option<Card>, SiteFault>
    ensures card { ReadsSite S.site_state S.lacks S.crash_states site.old site.new result (λ s card. card ≡ card_at (visible s now) selector.now) }
{
    let card = site.card(selector)?;
    Ok(unless_expired(card, now))
}

/// Whether the item of a front has expired.
fn is_past(front: &CardFront, now: Stamp) -> bool
    ensures { result ≡ is_over front.now.until now }
{
    is_over(front.until, now)
}

/// A front, unless its item has expired.
fn front_unless_expired(front: Option<CardFront>, now: Stamp) -> Option<CardFront>
    ensures { result ≡ front_unless_expired front now }
{
    match front {
        Some(front) if !is_past(&front, now) => Some(front),
        _ => None,
    }
}

/// What the line of a menu says of what stands at a selector, unless it has expired.
#[tactic(auto, using(crate::proofs::VisibleCards::visible_front))]
pub fn front_at<S: SearchKeeper>(
    site: &mut S,
    selector: &Selector,
    now: Stamp,
) -> Result<Option<CardFront>, SiteFault>
    ensures front { ReadsSite S.site_state S.lacks S.crash_states site.old site.new result (λ s front. front ≡ front_at (visible s now) selector.now) }
{
    let front = site.card_front(selector)?;
    Ok(front_unless_expired(front, now))
}

fn is_form(card: &Option<Card>) -> bool
    ensures { result ≡ is_form_by card.now }
{
    match card {
        Some(card) => matches!(card.body, CardBody::Form { .. }),
        None => false,
    }
}

/// Whether a form stands at the selector of a request.
#[tactic(auto, using(crate::proofs::FormCards::form_card))]
pub fn finds_form<S: SearchKeeper>(
    site: &mut S,
    request: &Request<'_>,
    now: Stamp,
) -> Result<bool, SiteFault>
    ensures form { ReadsSite S.site_state S.lacks S.crash_states site.old site.new result (λ s found. found ≡ is_form_in (item_at (visible s now) (request_of request.now).selector)) }
{
    let Ok(selector) = Selector::new(request.selector) else {
        unreachable!()
    };
    let card = card_at(site, &selector, now)?;
    Ok(is_form(&card))
}
