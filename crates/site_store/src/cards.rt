// Cards of items.
ghost use Rattle.std.specs.Prelude.{◌≡◌, ◌+◌, IsTrue};
ghost use Rattle.host_types.specs.Card.{card_at, card_body};
ghost use Rattle.site_records.specs.Limits.{is_body};
ghost use Rattle.site_store.specs.Represented.{RepresentedBy};
ghost use Rattle.site_store.specs.StoreReads.{HasBody};
ghost use Rattle.site_store.specs.Reads.{ReadsKnown, AlwaysReadsKnown};
ghost use Rattle.site_store.specs.Work.{MakesLookUps, chunks_behind, most_menu_chunks};

use crate::SiteOpenFault;
use crate::items::{read_form, read_menu};
use crate::records::record_at;
use host_types::{Card, CardBody, Selector};
use page_store::Keeper;
use site_records::{Record, RecordBody};
use std::alloc::Global;

/// A body without the bytes of its views, by what its record says of it.
#[tactic(auto, unfolding(site_records::specs::Limits::is_menu_size, site_records::specs::Limits::is_form_size))]
fn card_body<K: Keeper>(
    alloc: Global,
    keeper: &mut K,
    selector: &Selector,
    kept: RecordBody,
) -> Result<CardBody, SiteOpenFault>
    requires { IsTrue (is_body kept) }
    ensures body { ReadsKnown K.store_state K.may_need K.crash_states keeper.old keeper.new result (λ h b. HasBody h selector.now kept b) (λ b x. x ≡ card_body b) }
    ensures work { MakesLookUps (chunks_behind kept) (K.store_state keeper.old) (K.store_state keeper.new) }
{
    match kept {
        RecordBody::Views(kind, cards) => Ok(CardBody::Views(kind, cards)),
        RecordBody::Menu { size } => match read_menu(alloc, keeper, selector, size) {
            Ok(entries) => Ok(CardBody::Menu(entries)),
            Err(fault) => Err(fault),
        },
        RecordBody::Board { cap, next } => Ok(CardBody::Board { cap, next }),
        RecordBody::Form { board, size } => match read_form(alloc, keeper, selector, size) {
            Ok(questions) => Ok(CardBody::Form { board, questions }),
            Err(fault) => Err(fault),
        },
        RecordBody::Search { scope } => Ok(CardBody::Search { scope }),
        RecordBody::Moved { target } => Ok(CardBody::Moved { target }),
    }
}

/// The card of what stands at a selector.
pub fn card_in<K: Keeper>(
    alloc: Global,
    keeper: &mut K,
    selector: &Selector,
) -> Result<Option<Card>, SiteOpenFault>
    ensures card { AlwaysReadsKnown K.store_state K.may_need K.crash_states keeper.old keeper.new result RepresentedBy (λ s o. o ≡ card_at s selector.now) }
    ensures work { MakesLookUps (1 + most_menu_chunks) (K.store_state keeper.old) (K.store_state keeper.new) }
{
    let record = match record_at(alloc, keeper, selector) {
        Ok(Some(record)) => record,
        Ok(None) => return Ok(None),
        Err(fault) => return Err(fault),
    };
    let Record {
        title,
        stamp,
        until,
        summary,
        body,
    } = record;
    match card_body(alloc, keeper, selector, body) {
        Ok(body) => Ok(Some(Card {
            title,
            stamp,
            until,
            summary,
            body,
        })),
        Err(fault) => Err(fault),
    }
}
