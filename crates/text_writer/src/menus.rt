// Menus.
ghost use Rattle.std.specs.Prelude.{◌≡◌, ◌∷◌, ◌++◌, Some, IfOk, OnOk, decimal};
ghost use Rattle.host_types.specs.Address.{Address as AddressValue};
ghost use Rattle.host_types.specs.Fronts.{front_of};
ghost use Rattle.host_types.specs.declared.card.Card.{Card as CardValue};
ghost use Rattle.text_writer.specs.Text.{line_end, text_end};
ghost use Rattle.text_writer.specs.Menu as spec;
ghost use Rattle.text_writer.specs.Menu.{line_bytes};

use host_types::{
    Address, Bytes, Card, CardBody, CardFront, CardSort, Entry, LineList, Selector, Title,
};
use itoa::Buffer;
use std::alloc::{AllocError, Global};

/// The most bytes of a line beside its title, selector and host: its letter, four TABs, the digits of a port, a sign, CR and LF.
const BESIDE: usize = 13;

/// The line that ends a menu.
const END: &[u8] = b".\r\n";

/// The letter that a menu line begins with (RFC 1436, section 3.8).
fn type_letter(sort: CardSort) -> u8
    ensures { result ≡ spec.sort_letter sort }
{
    match sort {
        CardSort::Document(kind) => kind.letter(),
        CardSort::Menu | CardSort::Board | CardSort::Form => b'1',
        CardSort::Search => b'7',
        CardSort::Moved => b'3',
    }
}

/// How the line of an item ends: a TAB, the sign of Gopher+, CR and LF.
fn line_ending(sort: CardSort) -> &'static [u8]
    ensures { result.now ≡ 9 ∷ spec.sort_sign sort ++ line_end }
{
    match sort {
        CardSort::Form => b"\t?\r\n",
        _ => b"\t+\r\n",
    }
}

/// Adds the first four fields of a menu line, with a TAB between each two.
fn add_four_fields(
    line: &mut Vec<u8>,
    letter: u8,
    title: &[u8],
    selector: &[u8],
    host: &[u8],
    port: u16,
) -> Result<(), AllocError>
    ensures { OnOk result (line.new.items ≡ line.old.items ++ letter ∷ title.now ++ 9 ∷ selector.now ++ 9 ∷ host.now ++ 9 ∷ decimal port) }
{
    let names = title
        .len()
        .saturating_add(selector.len())
        .saturating_add(host.len());
    line.reserve(names.saturating_add(BESIDE))?;
    line.push(letter)?;
    line.extend_from_slice(title)?;
    line.push(b'\t')?;
    line.extend_from_slice(selector)?;
    line.push(b'\t')?;
    line.extend_from_slice(host)?;
    line.push(b'\t')?;
    line.extend_from_slice(Buffer::new().format(port).as_bytes())?;
    Ok(())
}

/// Host and port as they stand in each line of a site's items, with a TAB before each. They are written out once a menu.
pub fn address_fields(alloc: Global, address: &Address<'_>) -> Result<Bytes, AllocError>
    ensures fields { IfOk result (λ fields. fields ≡ spec.address_fields address.now) }
{
    let mut fields = Vec::new(alloc);
    fields.push(b'\t')?;
    fields.extend_from_slice(address.host.as_bytes())?;
    fields.push(b'\t')?;
    fields.extend_from_slice(Buffer::new().format(address.port).as_bytes())?;
    Ok(Bytes::from(fields))
}

/// Adds the line of an item of this site: its letter and title, selector, host, port, and the sign of Gopher+ (RFC 1436, section 3.8).
fn add_item_line(
    line: &mut Vec<u8>,
    address: &[u8],
    selector: &Selector,
    title: &Title,
    sort: CardSort,
) -> Result<(), AllocError>
    ensures { (a : AddressValue) → address.now ≡ spec.address_fields a → OnOk result (line.new.items ≡ line.old.items ++ spec.front_line a selector.now title.now sort) }
{
    let (title, selector) = (title.as_bytes(), selector.as_bytes());
    let names = title.len().saturating_add(selector.len());
    line.reserve(names.saturating_add(address.len()).saturating_add(BESIDE))?;
    line.push(type_letter(sort))?;
    line.extend_from_slice(title)?;
    line.push(b'\t')?;
    line.extend_from_slice(selector)?;
    line.extend_from_slice(address)?;
    line.extend_from_slice(line_ending(sort))?;
    Ok(())
}

/// The line of an item of this site.
pub fn item_line(
    alloc: Global,
    address: &Address<'_>,
    selector: &Selector,
    card: &Card,
) -> Result<Bytes, AllocError>
    ensures line { IfOk result (λ line. line ≡ spec.item_line address.now selector.now card.now) }
{
    let mut line = Vec::new(alloc);
    let address = address_fields(alloc, address)?;
    let sort = card.body.sort();
    add_item_line(&mut line, address.as_slice(), selector, &card.title, sort)?;
    Ok(Bytes::from(line))
}

/// Whether an item has moved.
fn is_moved(body: &CardBody) -> bool
    ensures { result ≡ spec.is_moved body.now }
{
    matches!(body, CardBody::Moved { .. })
}

/// The line that a menu has for what stands at a selector; none for an item that has moved.
pub fn menu_line(
    alloc: Global,
    address: &Address<'_>,
    selector: &Selector,
    card: &Card,
) -> Result<Option<Bytes>, AllocError>
    ensures line { IfOk result (λ line. line ≡ spec.found_line address.now selector.now (Some card.now)) }
{
    if is_moved(&card.body) {
        return Ok(None);
    }
    Ok(Some(item_line(alloc, address, selector, card)?))
}

/// Adds to the lines of a menu the one of what stands at a selector; none for an item that has moved. The site's address is given by its fields.
pub fn add_menu_line(
    lines: &mut Vec<u8>,
    address: &[u8],
    selector: &Selector,
    front: &CardFront,
) -> Result<(), AllocError>
    ensures line { (a : AddressValue) (card : CardValue) → address.now ≡ spec.address_fields a → front.now ≡ front_of card → OnOk result (lines.new.items ≡ lines.old.items ++ line_bytes (spec.found_line a selector.now (Some card))) }
{
    if front.sort == CardSort::Moved {
        return Ok(());
    }
    add_item_line(lines, address, selector, &front.title, front.sort)
}

/// Adds to the lines of a menu the one of an entry that names no item of this site; none for one that does.
pub fn add_link_line(
    alloc: Global,
    line: &mut Vec<u8>,
    address: &Address<'_>,
    entry: &Entry,
) -> Result<(), AllocError>
    ensures line { OnOk result (line.new.items ≡ line.old.items ++ line_bytes (spec.link_line address.now entry.now)) }
{
    match entry {
        Entry::Local(_) => return Ok(()),
        Entry::Info(title) => add_four_fields(
            line,
            b'i',
            title.as_bytes(),
            &[],
            address.host.as_bytes(),
            address.port,
        )?,
        Entry::Url { title, url } => {
            let mut selector = Vec::new(alloc);
            selector.extend_from_slice(b"URL:")?;
            selector.extend_from_slice(url.as_bytes())?;
            add_four_fields(
                line,
                b'h',
                title.as_bytes(),
                &selector,
                address.host.as_bytes(),
                address.port,
            )?
        }
        Entry::Remote {
            kind,
            title,
            selector,
            host,
            port,
        } => add_four_fields(
            line,
            kind.letter(),
            title.as_bytes(),
            selector.as_bytes(),
            host.as_bytes(),
            *port,
        )?,
    }
    line.extend_from_slice(b"\r\n")?;
    Ok(())
}

/// The line of an entry that names no item of this site; none for one that does.
pub fn link_line(
    alloc: Global,
    address: &Address<'_>,
    entry: &Entry,
) -> Result<Option<Bytes>, AllocError>
    ensures line { IfOk result (λ line. line ≡ spec.link_line address.now entry.now) }
{
    if let Entry::Local(_) = entry {
        return Ok(None);
    }
    let mut line = Vec::new(alloc);
    add_link_line(alloc, &mut line, address, entry)?;
    Ok(Some(Bytes::from(line)))
}

/// The menu of these lines: they, and the line that is one period (RFC 1436, section 3.8).
pub fn ended_menu(lines: Vec<u8>) -> Result<Bytes, AllocError>
    ensures { IfOk result (λ menu. menu ≡ lines.items ++ text_end) }
{
    let mut menu = lines;
    menu.extend_from_slice(END)?;
    Ok(Bytes::from(menu))
}

/// A menu of these lines: they, and the line that is one period (RFC 1436, section 3.8).
#[tactic(auto, unfolding(crate::specs::Menu::menu))]
pub fn menu(alloc: Global, lines: &LineList) -> Result<Bytes, AllocError>
    ensures menu { IfOk result (λ m. m ≡ spec.menu lines.now) }
{
    let mut size = END.len();
    for line in lines.as_slice() {
        size = size.saturating_add(line.as_slice().len());
    }
    let mut menu = Vec::with_capacity(alloc, size)?;
    for line in lines.as_slice() {
        menu.extend_from_slice(line.as_slice())?;
    }
    ended_menu(menu)
}
