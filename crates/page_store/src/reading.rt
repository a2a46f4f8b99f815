// Fields, entries and flat pages, read from left to right.
ghost use Rattle.std.specs.Prelude.{◌≡◌, ◌*◌, ◌≤◌, ◌<◌, option_map, length, IfSome};
ghost use Rattle.std.specs.Int.{w16, w32, w64};
ghost use Rattle.page_store.specs.Reading.{number_at, byte_at, piece_at};
ghost use Rattle.std.specs.List.{list_all};
ghost use Rattle.page_store.specs.Roots.{FitsDevice, seal_of, root_at, short_text_at, is_zero};
ghost use Rattle.page_store.specs.Heads.{seen_head, seen_child};
ghost use Rattle.page_store.specs.Pages.{Head, head_at, pair_at, child_at};

use crate::{Banner, LEAST_PAGES, LONGEST_KEY, LONGEST_VALUE, MOST_PAGES, Root};
use common_types::{Admin, Host, are_same};
use sector_device::SECTOR_SIZE;

/// The first word of a root sector.
pub(crate) const ROOT_WORD: [u8; 8] = *b"GOPHROOT";

/// The first word of a flat page.
pub(crate) const FLAT_WORD: [u8; 8] = *b"GOPHFLAT";

fn u16_at(bytes: &[u8]) -> Option<(u16, &[u8])>
    ensures { option_map (λ x. (x.0, x.1.now)) result ≡ number_at w16 bytes.now }
{
    if bytes.len() < 2 {
        return None;
    }
    let (front, rest) = bytes.split_at(2);
    Some((u16::from_be_bytes([front[0], front[1]]), rest))
}

fn u32_at(bytes: &[u8]) -> Option<(u32, &[u8])>
    ensures { option_map (λ x. (x.0, x.1.now)) result ≡ number_at w32 bytes.now }
{
    if bytes.len() < 4 {
        return None;
    }
    let (front, rest) = bytes.split_at(4);
    let number = u32::from_be_bytes([front[0], front[1], front[2], front[3]]);
    Some((number, rest))
}

fn u64_at(bytes: &[u8]) -> Option<(u64, &[u8])>
    ensures { option_map (λ x. (x.0, x.1.now)) result ≡ number_at w64 bytes.now }
{
    if bytes.len() < 8 {
        return None;
    }
    let (front, rest) = bytes.split_at(8);
    let number = u64::from_be_bytes([
        front[0], front[1], front[2], front[3], front[4], front[5], front[6], front[7],
    ]);
    Some((number, rest))
}

fn u8_at(bytes: &[u8]) -> Option<(u8, &[u8])>
    ensures { option_map (λ x. (x.0, x.1.now)) result ≡ byte_at bytes.now }
{
    match bytes {
        [] => None,
        [byte, rest @ ..] => Some((*byte, rest)),
    }
}

fn piece_at(length: usize, bytes: &[u8]) -> Option<(&[u8], &[u8])>
    ensures { option_map (λ x. (x.0.now, x.1.now)) result ≡ piece_at length bytes.now }
{
    if bytes.len() < length {
        return None;
    }
    Some(bytes.split_at(length))
}

#[tactic(auto, unfolding(crate::specs::Roots::short_text_at))]
fn short_text_at(bytes: &[u8]) -> Option<(&[u8], &[u8])>
    ensures { option_map (λ x. (x.0.now, x.1.now)) result ≡ short_text_at bytes.now }
{
    let (length, rest) = u8_at(bytes)?;
    piece_at(length as usize, rest)
}

/// Whether all bytes are 0. It takes no memory.
pub fn are_zero(bytes: &[u8]) -> bool
    ensures { result ≡ list_all is_zero bytes.now }
{
    match bytes {
        [] => true,
        // each byte is the one before it
        [first, rest @ ..] => *first == 0 && rest == &bytes[..rest.len()],
    }
}

/// The root that a record says, on a device of so many sectors. It takes no memory.
#[tactic(auto, unfolding(crate::specs::Roots::root_at))]
pub(crate) fn root_at(sectors: u64, bytes: &[u8]) -> Option<Root>
    ensures root { result ≡ root_at sectors bytes.now }
    ensures fits { IfSome result (λ root. FitsDevice sectors root) }
    ensures port { IfSome result (λ root. 0 < root.banner.port) }
{
    let (version, rest) = u16_at(bytes)?;
    let (pages, rest) = u32_at(rest)?;
    let (tree, rest) = u32_at(rest)?;
    let (height, rest) = u16_at(rest)?;
    let (keys, rest) = u64_at(rest)?;
    let (host_text, rest) = short_text_at(rest)?;
    let (port, rest) = u16_at(rest)?;
    let (admin_text, rest) = short_text_at(rest)?;
    let Ok(host) = Host::new(host_text) else {
        return None;
    };
    let Ok(admin) = Admin::new(admin_text) else {
        return None;
    };
    if pages < LEAST_PAGES
        || pages > MOST_PAGES
        || 8 * u64::from(pages) > sectors
        || port < 1
        || !are_zero(rest)
    {
        return None;
    }
    Some(Root {
        pages,
        tree,
        height,
        keys,
        banner: Banner {
            version,
            host,
            port,
            admin,
        },
    })
}

/// The seal of a root sector, where it bears magic word and number. It takes no memory.
#[tactic(auto, unfolding(crate::specs::Roots::seal_of))]
pub(crate) fn seal_at(number: u64, sector: &[u8; SECTOR_SIZE]) -> Option<u64>
    ensures { result ≡ seal_of number sector.now }
{
    let (word, rest) = sector.split_at(8);
    let (own, rest) = rest.split_at(8);
    let (seal, _) = rest.split_at(8);
    let own = u64::from_be_bytes([
        own[0], own[1], own[2], own[3], own[4], own[5], own[6], own[7],
    ]);
    let seal = u64::from_be_bytes([
        seal[0], seal[1], seal[2], seal[3], seal[4], seal[5], seal[6], seal[7],
    ]);
    if are_same(word, &ROOT_WORD) && own == number {
        Some(seal)
    } else {
        None
    }
}

/// What stands before the entries of a page.
#[derive(Clone, Copy)]
pub struct PageHead {
    /// The page's own number.
    pub number: u32,
    /// The generation that wrote it.
    pub generation: u64,
    /// How many levels are under it.
    pub level: u16,
    /// How many entries it has.
    pub count: u16,
}

/// What stands before the entries of a page with a magic word, and the bytes after it; none where the word is another or the bytes are too few. It takes no memory.
#[tactic(auto, unfolding(crate::specs::Pages::head_at))]
pub fn head_at<'a>(word: &[u8; 8], bytes: &'a [u8]) -> Option<(PageHead, &'a [u8])>
    ensures { option_map (λ x. (seen_head x.0, x.1.now)) result ≡ head_at word.now bytes.now }
{
    let (own, rest) = piece_at(8, bytes)?;
    let (number, rest) = u32_at(rest)?;
    let (generation, rest) = u64_at(rest)?;
    let (level, rest) = u16_at(rest)?;
    let (count, rest) = u16_at(rest)?;
    if !are_same(own, word) {
        return None;
    }
    Some((
        PageHead {
            number,
            generation,
            level,
            count,
        },
        rest,
    ))
}

/// A key and a value in a page, and the bytes after them; none where they have not the form. It takes no memory.
#[tactic(auto, unfolding(crate::specs::Pages::pair_at))]
pub fn pair_at(bytes: &[u8]) -> Option<((&[u8], &[u8]), &[u8])>
    ensures { option_map (λ x. ((x.0.0.now, x.0.1.now), x.1.now)) result ≡ pair_at bytes.now }
{
    let (key_length, rest) = u16_at(bytes)?;
    let (value_length, rest) = u16_at(rest)?;
    let (key, rest) = piece_at(key_length as usize, rest)?;
    let (value, rest) = piece_at(value_length as usize, rest)?;
    if key_length < 1
        || usize::from(key_length) > LONGEST_KEY
        || usize::from(value_length) > LONGEST_VALUE
    {
        return None;
    }
    Some(((key, value), rest))
}

/// A key and the number of the page under it, in a page, and the bytes after them; none where they have not the form. It takes no memory.
#[tactic(auto, unfolding(crate::specs::Pages::child_at))]
pub fn child_at(bytes: &[u8]) -> Option<((&[u8], u32), &[u8])>
    ensures { option_map (λ x. (seen_child (x.0.0.now) x.0.1, x.1.now)) result ≡ child_at bytes.now }
{
    let (key_length, rest) = u16_at(bytes)?;
    let (page, rest) = u32_at(rest)?;
    let (key, rest) = piece_at(key_length as usize, rest)?;
    if usize::from(key_length) > LONGEST_KEY {
        return None;
    }
    Some(((key, page), rest))
}
