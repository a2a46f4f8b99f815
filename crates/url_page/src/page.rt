// The page of a link.
ghost use Rattle.std.specs.Prelude.{◌≡◌, Some, IfOk, IfErr};
ghost use Rattle.std.specs.List.{list_all};
ghost use Rattle.url_page.specs.Faults.{IsUrlFault};
ghost use Rattle.url_page.specs.Page as spec;

use crate::{UrlFault, escape};
use std::alloc::{AllocError, Global};

/// The greatest length of a link in bytes.
const LONGEST_URL: usize = 251;

fn is_visible(url: &[u8]) -> bool
    ensures { result ≡ list_all spec.is_visible url.now }
{
    for byte in url {
        if *byte < 33 || *byte > 126 {
            return false;
        }
    }
    true
}

fn has_scheme(url: &[u8]) -> bool
    ensures { result ≡ spec.has_scheme url.now }
{
    url.starts_with(b"http://")
        || url.starts_with(b"https://")
        || url.starts_with(b"ftp://")
        || url.starts_with(b"gopher://")
}

/// Whether a browser is led to the link.
#[tactic(auto, unfolding(crate::specs::Page::is_allowed))]
fn is_allowed(url: &[u8]) -> bool
    ensures { result ≡ spec.is_allowed url.now }
{
    url.len() <= LONGEST_URL && is_visible(url) && has_scheme(url)
}

#[tactic(auto, unfolding(crate::specs::Page::opening))]
fn opening() -> &'static [u8]
    ensures { result.now ≡ spec.opening }
{
    b"<html><head><meta http-equiv=\"refresh\" content=\"0;url="
}

#[tactic(auto, unfolding(crate::specs::Page::middle))]
fn middle() -> &'static [u8]
    ensures { result.now ≡ spec.middle }
{
    b"\"></head><body><a href=\""
}

#[tactic(auto, unfolding(crate::specs::Page::closing))]
fn closing() -> &'static [u8]
    ensures { result.now ≡ spec.closing }
{
    b"</a></body></html>\n"
}

#[tactic(auto, unfolding(crate::specs::Page::page))]
fn page_of(alloc: Global, url: &[u8]) -> Result<Vec<u8>, AllocError>
    ensures { IfOk result (λ page. page.items ≡ spec.page url.now) }
{
    let link = escape(alloc, url)?;
    let mut page = Vec::new(alloc);
    page.extend_from_slice(opening())?;
    page.extend_from_slice(&link)?;
    page.extend_from_slice(middle())?;
    page.extend_from_slice(&link)?;
    page.extend_from_slice(b"\">")?;
    page.extend_from_slice(&link)?;
    page.extend_from_slice(closing())?;
    Ok(page)
}

/// The page that leads a browser on to the link: at most 251 bytes, each a printed character that is no space, behind `http://`, `https://`, `ftp://` or `gopher://`.
pub fn redirect(alloc: Global, url: &[u8]) -> Result<Vec<u8>, UrlFault>
    ensures page { IfOk result (λ page. spec.redirect url.now ≡ Some page.items) }
    ensures fault { IfErr result (IsUrlFault url.now) }
{
    if !is_allowed(url) {
        return Err(UrlFault::NotAllowed);
    }
    Ok(page_of(alloc, url)?)
}
