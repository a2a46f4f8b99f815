// Items with the bytes of their views.
ghost use Rattle.std.specs.Prelude.{◌≡◌, [], List, IfOk, IsTrue, Some};
ghost use Rattle.host_types.specs.Card.{card_at};
ghost use Rattle.host_types.specs.Site.{item_at};
ghost use Rattle.host_types.specs.declared.item.Body.{Body as ItemBody};
ghost use Rattle.host_types.specs.declared.item.Item.{Item as SiteItem};
ghost use Rattle.host_types.specs.declared.view.View.{View as ItemView};
ghost use Rattle.image_exports.specs.Looks.{Looks};
ghost use Rattle.image_exports.specs.Whole.{AreViewsAt, IsBodyAt, IsViewAt};

use host_types::{
    Body, Bytes, Card, CardBody, CardView, Item, Selector, SiteFault, SiteKeeper, View, ViewList,
};
use image_items::view_bytes;
use std::alloc::Global;

/// The view at a place, with its bytes.
fn whole_view<S: SiteKeeper>(
    alloc: Global,
    site: &mut S,
    selector: &Selector,
    place: usize,
    card: &CardView,
) -> Result<View, SiteFault>
    requires unpinned { (S.site_state site.old).pins ≡ [] }
    requires stands { let h = S.site_state site.old in IsTrue h.honest → (view : ItemView) × IsViewAt h.site selector.now place card.now view }
    ensures whole { let h = S.site_state site.old in IsTrue h.honest → (view : ItemView) → IsViewAt h.site selector.now place card.now view → IfOk result (λ v. v ≡ view) }
    ensures looks { Looks S.site_state S.crash_states site.old site.new result }
{
    let bytes = view_bytes(alloc, site, selector, place, card.length)?;
    Ok(View {
        name: card.name.clone()?,
        language: card.language.clone()?,
        bytes: Bytes::from(bytes),
    })
}

/// The views of these cards, with their bytes.
fn whole_views<S: SiteKeeper>(
    alloc: Global,
    site: &mut S,
    selector: &Selector,
    cards: &[CardView],
) -> Result<ViewList, SiteFault>
    requires unpinned { (S.site_state site.old).pins ≡ [] }
    requires stands { let h = S.site_state site.old in IsTrue h.honest → (views : List ItemView) × AreViewsAt h.site selector.now cards.now views }
    ensures whole { let h = S.site_state site.old in IsTrue h.honest → (views : List ItemView) → AreViewsAt h.site selector.now cards.now views → IfOk result (λ vs. vs ≡ views) }
    ensures looks { Looks S.site_state S.crash_states site.old site.new result }
{
    let mut views = ViewList::new(alloc);
    for place in 0..cards.len() {
        views.push(whole_view(alloc, site, selector, place, &cards[place])?)?;
    }
    Ok(views)
}

/// The body of this card, with the bytes of its views.
fn whole_body<S: SiteKeeper>(
    alloc: Global,
    site: &mut S,
    selector: &Selector,
    card: CardBody,
) -> Result<Body, SiteFault>
    requires unpinned { (S.site_state site.old).pins ≡ [] }
    requires stands { let h = S.site_state site.old in IsTrue h.honest → (body : ItemBody) × IsBodyAt h.site selector.now card body }
    ensures whole { let h = S.site_state site.old in IsTrue h.honest → (body : ItemBody) → IsBodyAt h.site selector.now card body → IfOk result (λ b. b ≡ body) }
    ensures looks { Looks S.site_state S.crash_states site.old site.new result }
{
    match card {
        CardBody::Views(kind, cards) => {
            let views = whole_views(alloc, site, selector, cards.as_slice())?;
            Ok(Body::Views(kind, views))
        }
        CardBody::Menu(entries) => Ok(Body::Menu(entries)),
        CardBody::Board { cap, next } => Ok(Body::Board { cap, next }),
        CardBody::Form { board, questions } => Ok(Body::Form { board, questions }),
        CardBody::Search { scope } => Ok(Body::Search { scope }),
        CardBody::Moved { target } => Ok(Body::Moved { target }),
    }
}

/// The item of this card, with the bytes of its views.
pub fn whole_item<S: SiteKeeper>(
    alloc: Global,
    site: &mut S,
    selector: &Selector,
    card: Card,
) -> Result<Item, SiteFault>
    requires unpinned { (S.site_state site.old).pins ≡ [] }
    requires stands { let h = S.site_state site.old in IsTrue h.honest → Some card ≡ card_at h.site selector.now }
    ensures whole { let h = S.site_state site.old in IsTrue h.honest → (item : SiteItem) → item_at h.site selector.now ≡ Some item → IfOk result (λ i. i ≡ item) }
    ensures looks { Looks S.site_state S.crash_states site.old site.new result }
{
    let Card {
        title,
        stamp,
        until,
        summary,
        body,
    } = card;
    let body = whole_body(alloc, site, selector, body)?;
    Ok(Item {
        title,
        stamp,
        until,
        summary,
        body,
    })
}
