// Attributes of what stands in a site.
ghost use Rattle.std.specs.Prelude.{◌≡◌, ◌++◌, true, filter_map, OnOk, IfOk, IfErr, IsTrue};
ghost use Rattle.std.specs.Option.{option_to_list};
ghost use Rattle.host_types.specs.Address.{address};
ghost use Rattle.host_types.specs.Card.{card_at};
ghost use Rattle.host_types.specs.Visible.{visible};
ghost use Rattle.host_types.specs.SiteState.{HasRead, LacksTheSame, IsReadFault};
ghost use Rattle.host_types.specs.CrashStates.{AddsNone};
ghost use Rattle.plus_blocks.specs.Blocks.{attributes};
ghost use Rattle.request_reader.specs.Seen.{names_in};
ghost use Rattle.site_replies.specs.Reads.{ReadsSite};
ghost use Rattle.site_replies.specs.Reply as spec;
ghost use Rattle.site_replies.specs.Reply.{found_blocks, entry_block, attributes_of};

use crate::entries::{locals, post_names};
use crate::looking::card_at;
use crate::posts::error_reply_of;
use host_types::{Bytes, Card, CardBody, Entry, LineList, Selector, SiteFault, Stamp};
use plus_blocks::{attributes, entry_attributes, info, item_blocks};
use request_reader::Names;
use std::alloc::{AllocError, Global};
use text_writer::{ErrorText, link_line};
use word_search::SearchKeeper;

/// The blocks of what stands at a selector, where clients find it.
#[tactic(auto, using(crate::proofs::AfterReads::same_address))]
fn blocks_at<S: SearchKeeper>(
    alloc: Global,
    site: &mut S,
    names: &LineList,
    selector: &Selector,
    now: Stamp,
) -> Result<Option<Bytes>, SiteFault>
    ensures blocks { ReadsSite S.site_state S.lacks S.crash_states site.old site.new result (λ s blocks. blocks ≡ found_blocks (visible s now) names.now selector.now (card_at (visible s now) selector.now)) }
{
    let Some(card) = card_at(site, selector, now)? else {
        return Ok(None);
    };
    if let CardBody::Moved { .. } = &card.body {
        return Ok(None);
    }
    Ok(Some(item_blocks(alloc, &site.front(), names, selector, &card)?))
}

/// The block of a link's line.
fn link_block(alloc: Global, line: Option<Bytes>) -> Result<Option<Bytes>, AllocError>
    ensures { IfOk result (λ block. block ≡ spec.link_block line) }
{
    match line {
        Some(line) => Ok(Some(info(alloc, line.as_slice())?)),
        None => Ok(None),
    }
}

/// The blocks of an entry of a menu, where it has some.
fn blocks_of<S: SearchKeeper>(
    alloc: Global,
    site: &mut S,
    names: &LineList,
    entry: &Entry,
    now: Stamp,
) -> Result<Option<Bytes>, SiteFault>
    ensures blocks { ReadsSite S.site_state S.lacks S.crash_states site.old site.new result (λ s blocks. blocks ≡ entry_block (visible s now) names.now entry.now) }
{
    if let Entry::Local(selector) = entry {
        return blocks_at(alloc, site, names, selector, now);
    }
    let line = link_line(alloc, &site.front(), entry)?;
    Ok(link_block(alloc, line)?)
}

/// Adds the blocks of an entry, where there are some.
fn add_any(all: &mut LineList, blocks: Option<Bytes>) -> Result<(), AllocError>
    ensures { OnOk result (all.new ≡ all.old ++ option_to_list blocks) }
{
    if let Some(blocks) = blocks {
        all.push(blocks)?;
    }
    Ok(())
}

/// The blocks of the entries that have some.
#[tactic(auto, using(crate::proofs::AfterReads::lacking_on, crate::proofs::Picks::filter_map_push))]
fn all_blocks<S: SearchKeeper>(
    alloc: Global,
    site: &mut S,
    names: &LineList,
    entries: &[Entry],
    now: Stamp,
) -> Result<LineList, SiteFault>
    ensures blocks { ReadsSite S.site_state S.lacks S.crash_states site.old site.new result (λ s blocks. blocks ≡ filter_map (entry_block (visible s now) names.now) entries.now) }
{
    let mut all = LineList::new(alloc);
    for entry in entries {
        let blocks = blocks_of(alloc, site, names, entry, now)?;
        add_any(&mut all, blocks)?;
    }
    Ok(all)
}

/// The reply to `$`, for a menu of these entries.
fn attributes_of<S: SearchKeeper>(
    alloc: Global,
    site: &mut S,
    names: &LineList,
    entries: &[Entry],
    now: Stamp,
) -> Result<Bytes, SiteFault>
    ensures reply { ReadsSite S.site_state S.lacks S.crash_states site.old site.new result (λ s reply. reply ≡ attributes_of (visible s now) names.now entries.now) }
{
    let blocks = all_blocks(alloc, site, names, entries, now)?;
    Ok(entry_attributes(alloc, &blocks)?)
}

/// The attributes of the entries of a menu or of a board.
fn entries_attributes<S: SearchKeeper>(
    alloc: Global,
    site: &mut S,
    names: &LineList,
    selector: &Selector,
    body: &CardBody,
    now: Stamp,
) -> Result<Bytes, SiteFault>
    ensures reply { ReadsSite S.site_state S.lacks S.crash_states site.old site.new result (λ s reply. reply ≡ spec.entries_reply (visible s now) names.now selector.now body.now) }
{
    match body {
        CardBody::Menu(entries) => attributes_of(alloc, site, names, entries.as_slice(), now),
        CardBody::Board { cap, next } => {
            let names_of_posts = post_names(alloc, selector, *cap, *next)?;
            let entries = locals(alloc, names_of_posts.as_slice())?;
            attributes_of(alloc, site, names, entries.as_slice(), now)
        }
        _ => Ok(error_reply_of(alloc, true, ErrorText::NotAMenu)?),
    }
}

/// The reply to `$`: the attributes of the entries of a menu or of a board.
pub fn entries_reply<S: SearchKeeper>(
    alloc: Global,
    site: &mut S,
    names: Names<'_>,
    selector: &Selector,
    body: &CardBody,
    now: Stamp,
) -> Result<Bytes, SiteFault>
    ensures reply { ReadsSite S.site_state S.lacks S.crash_states site.old site.new result (λ s reply. reply ≡ spec.entries_reply (visible s now) (names_in names.entry) selector.now body.now) }
{
    let names = names.to_list(alloc)?;
    entries_attributes(alloc, site, &names, selector, body, now)
}

/// The reply to `!`: the attributes of an item of which the card is known.
pub fn item_reply<S: SearchKeeper>(
    alloc: Global,
    site: &S,
    names: Names<'_>,
    selector: &Selector,
    card: &Card,
) -> Result<Bytes, AllocError>
    ensures { IsTrue (S.site_state site.now).honest → IfOk result (λ reply. reply ≡ attributes (address (S.site_state site.now).site) (names_in names.entry) selector.now card.now) }
{
    let names = names.to_list(alloc)?;
    attributes(alloc, &site.front(), &names, selector, card)
}
