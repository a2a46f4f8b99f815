// Replies of bytes alone: texts, heads, pages of links; and the laws.
use crate::bench::Bench;
use crate::line::{Line, number};
use crate::pipes::show_piped;
use crate::replays;
use crate::trouble::Trouble;
use host_types::{Admin, Stamp, lines_of};
use mem_site::MemSite;
use plus_blocks::{abstract_block, admin, head, info};
use std::alloc::Global;
use text_writer::text;
use url_page::{escape, redirect, unescape};
use word_search::{word_change, words_in};

/// The laws of sessions whose posts wait for one another, and of runs of a hub.
fn groups() {
    group_world::worked_examples();
    group_world::groups_are_right();
    group_world::replies_stay();
    group_world::posts_count_on();
    group_world::finds_its_place();
    group_world::plain_hubs_stay();
    group_world::later_replies_are_known();
    group_world::only_forms_post();
    group_world::posts_wait();
    group_world::continues();
    group_world::calls_leave::<MemSite>();
    group_hub::runs_join::<MemSite>();
    group_hub::runs_count::<MemSite>();
    group_hub::faults_keep_the_world();
}

/// `laws`: the laws of each library, which promise without a value.
fn laws() -> Result<(), Trouble> {
    host_types::worked_examples();
    host_types::changes_keep_sites_valid();
    host_types::what_stands_has_limits();
    request_reader::closed_verdict_stays();
    request_reader::decided();
    request_reader::valid();
    request_reader::any_cuts();
    request_reader::worked_examples();
    text_writer::reads_back();
    text_writer::menus_end_once();
    text_writer::pipes_give_the_text();
    text_writer::worked_examples();
    plus_blocks::replies_end_once();
    plus_blocks::worked_examples();
    ask_forms::reads_answers();
    ask_forms::worked_examples();
    url_page::reads_back();
    url_page::worked_examples();
    word_search::worked_examples();
    host_script::worked_examples();
    groups();
    Ok(())
}

/// `redirect URL`: the page, and the page with its names read back.
fn page(alloc: Global, line: &mut Line, url: &[u8]) -> Result<(), Trouble> {
    let page = redirect(alloc, url)?;
    line.bytes(page.as_slice())?;
    Ok(line.bytes(unescape(alloc, page.as_slice())?.as_slice())?)
}

/// `escape BYTES`: the bytes with names, and those read back.
fn named(alloc: Global, line: &mut Line, bytes: &[u8]) -> Result<(), Trouble> {
    let named = escape(alloc, bytes)?;
    line.bytes(named.as_slice())?;
    Ok(line.bytes(unescape(alloc, named.as_slice())?.as_slice())?)
}

/// `changed_words WORDS WORDS`: those that go, and those that come.
fn changed_words(alloc: Global, line: &mut Line, old: &[u8], new: &[u8]) -> Result<(), Trouble> {
    let change = word_change(alloc, &words_in(alloc, old)?, &words_in(alloc, new)?)?;
    line.word("drop")?;
    line.list(&change.drop)?;
    line.word("add")?;
    Ok(line.list(&change.add)?)
}

/// `text BYTES`, and what else gives bytes back.
fn show_text(alloc: Global, line: &mut Line, bytes: &[u8]) -> Result<(), Trouble> {
    Ok(line.bytes(text(alloc, bytes)?.as_slice())?)
}

fn show_lines(alloc: Global, line: &mut Line, bytes: &[u8]) -> Result<(), Trouble> {
    Ok(line.list(&lines_of(alloc, bytes)?)?)
}

fn show_head(alloc: Global, line: &mut Line, length: &[u8]) -> Result<(), Trouble> {
    let length = number(length)? as usize;
    Ok(line.bytes(head(alloc, Some(length))?.as_slice())?)
}

fn show_endless(alloc: Global, line: &mut Line) -> Result<(), Trouble> {
    Ok(line.bytes(head(alloc, None)?.as_slice())?)
}

fn show_info(alloc: Global, line: &mut Line, bytes: &[u8]) -> Result<(), Trouble> {
    Ok(line.bytes(info(alloc, bytes)?.as_slice())?)
}

fn show_abstract(alloc: Global, line: &mut Line, bytes: &[u8]) -> Result<(), Trouble> {
    Ok(line.bytes(abstract_block(alloc, bytes)?.as_slice())?)
}

fn show_unescaped(alloc: Global, line: &mut Line, bytes: &[u8]) -> Result<(), Trouble> {
    Ok(line.bytes(unescape(alloc, bytes)?.as_slice())?)
}

/// `admin KEEPER STAMP`
fn show_admin(alloc: Global, line: &mut Line, name: &[u8], seconds: &[u8]) -> Result<(), Trouble> {
    let stamp = Stamp::new(number(seconds)?)?;
    let name = Admin::new(name)?;
    Ok(line.bytes(admin(alloc, &name, stamp)?.as_slice())?)
}

/// The words of pages of links, and of two fields.
fn of_pages(
    bench: &mut Bench,
    line: &mut Line,
    word: &str,
    fields: &[Vec<u8>],
) -> Result<(), Trouble> {
    match (word, fields) {
        ("redirect", [url]) => page(bench.alloc, line, url),
        ("escape", [bytes]) => named(bench.alloc, line, bytes),
        ("unescape", [bytes]) => show_unescaped(bench.alloc, line, bytes),
        ("admin", [name, stamp]) => show_admin(bench.alloc, line, name, stamp),
        ("changed_words", [old, new]) => changed_words(bench.alloc, line, old, new),
        ("laws", []) => laws(),
        _ => replays::call(bench, line, word, fields),
    }
}

pub fn call(
    bench: &mut Bench,
    line: &mut Line,
    word: &str,
    fields: &[Vec<u8>],
) -> Result<(), Trouble> {
    match (word, fields) {
        ("text", [bytes]) => show_text(bench.alloc, line, bytes),
        ("piped", [bytes]) => show_piped(bench.alloc, line, bytes),
        ("lines", [bytes]) => show_lines(bench.alloc, line, bytes),
        ("head", [length]) => show_head(bench.alloc, line, length),
        ("info", [bytes]) => show_info(bench.alloc, line, bytes),
        ("abstract", [bytes]) => show_abstract(bench.alloc, line, bytes),
        ("endless", []) => show_endless(bench.alloc, line),
        _ => of_pages(bench, line, word, fields),
    }
}
