// Whether a site in memory keeps all rules of a site.
ghost use Rattle.std.specs.Prelude.{◌≡◌, ◌∷◌, ◌++◌, false, codes, ◌<◌, ◌^◌, ℕ, List, Some, IfOk, IfSome, MatchOption, IsTrue, decimal, map};
ghost use Rattle.std.specs.Bool.{Decides};
ghost use Rattle.std.specs.FinMap.{is_sorted};
ghost use Rattle.host_types.specs.Site.{byte_cmp, post_selector, text_view, IsPost, MayStand, IsSite};
ghost use Rattle.host_types.specs.Items.{is_host, is_admin};
ghost use Rattle.mem_site.specs.ValidSites.{has_slash, IsCut, IsNoPostName, IsLast, IsPlainText, BoardsFit, AreTyped, AllMayStand, HasFront};

use crate::MemSite;
use host_types::{Body, Item, Kind, Selector, View, valid_admin, valid_host, valid_selector};
use std::alloc::{AllocError, Global};

/// What stands before and behind the last slash.
fn around_last_slash(bytes: &[u8]) -> Option<(&[u8], &[u8])>
    ensures { MatchOption result (has_slash bytes.now ≡ false) (λ p. IsCut bytes.now p.0.now p.1.now) }
{
    let mut front = bytes;
    while let [others @ .., last] = front {
        if *last == b'/' {
            return Some((others, &bytes[front.len()..]));
        }
        front = others;
    }
    None
}

/// The number that is written so.
fn number_in(digits: &[u8]) -> Option<u64>
    ensures { (n : ℕ) → n < 2 ^ 64 → digits.now ≡ decimal n → result ≡ Some n }
{
    let Ok(text) = std::str::from_utf8(digits) else {
        return None;
    };
    text.parse::<u64>().ok()
}

/// Whether a post of this number of the board has this selector.
fn is_named(
    alloc: Global,
    selector: &Selector,
    board: &Selector,
    number: u64,
) -> Result<bool, AllocError>
    ensures { IfOk result (λ yes. Decides yes (selector.now ≡ post_selector board.now number)) }
{
    let _ = selector.as_bytes();
    match Selector::of_post(alloc, board, number)? {
        Some(post) => Ok(post.as_bytes() == selector.as_bytes()),
        None => Ok(false),
    }
}

/// The board and the number of a post's selector.
fn named_post(alloc: Global, selector: &Selector) -> Result<Option<(Selector, u64)>, AllocError>
    ensures { IfOk result (λ o. MatchOption o (IsNoPostName selector.now) (λ p. selector.now ≡ post_selector p.0 p.1)) }
{
    let [b'p', b'o', b's', b't', b'/', rest @ ..] = selector.as_bytes() else {
        return Ok(None);
    };
    let Some((board, digits)) = around_last_slash(rest) else {
        return Ok(None);
    };
    let Some(number) = number_in(digits) else {
        return Ok(None);
    };
    let Ok(board) = Selector::new(board) else {
        return Ok(None);
    };
    if is_named(alloc, selector, &board, number)? {
        Ok(Some((board, number)))
    } else {
        Ok(None)
    }
}

/// Selectors and items are valid as their types say.
fn valid_names(entries: &[(&Selector, &Item)])
    ensures { AreTyped (map (λ e. (e.0.now, e.1.now)) entries.now) }
{
    let mut rest = entries;
    while let [entry, others @ ..] = rest {
        valid_selector(entry.0);
        entry.1.valid_names();
        rest = others;
    }
}

/// Whether it is one of the last numbers below the next.
fn is_last(number: u64, cap: u16, next: u64) -> bool
    ensures { Decides result (IsLast number cap next) }
{
    0 < number && number < next && next - number <= u64::from(cap)
}

/// Whether a view is as `Item::text` makes it, whatever its bytes.
fn is_plain_view(view: &View) -> bool
    ensures { Decides result (view.now ≡ text_view view.now.bytes) }
{
    view.name.as_slice() == b"Text/plain".as_slice() && view.language.is_empty()
}

/// Whether it is a text document of one view, `Text/plain` and without language, as posts are.
fn is_plain_text(body: &Body) -> bool
    ensures { Decides result (IsPlainText body.now) }
{
    match body {
        Body::Views(Kind::Text, views) => match views.as_slice() {
            [view] => is_plain_view(view),
            _ => false,
        },
        _ => false,
    }
}

impl MemSite {
    /// Whether an item is one of the last posts of a board that stands here.
    fn is_post(&self, alloc: Global, selector: &Selector, item: &Item) -> Result<bool, AllocError>
        requires { BoardsFit self.now }
        ensures { IfOk result (λ yes. Decides yes (IsPost self.now selector.now item.now)) }
    {
        let Some((board, number)) = named_post(alloc, selector)? else {
            return Ok(false);
        };
        let Some((cap, next)) = self.board(&board) else {
            return Ok(false);
        };
        if !is_last(number, cap, next) {
            return Ok(false);
        }
        Ok(is_plain_text(&item.body))
    }

    /// Whether an item may stand at this selector.
    fn may_stand(&self, alloc: Global, selector: &Selector, item: &Item) -> Result<bool, AllocError>
        requires { BoardsFit self.now }
        ensures { IfOk result (λ yes. Decides yes (MayStand self.now selector.now item.now)) }
    {
        valid_selector(selector);
        item.valid_names();
        if item.body.is_bad() || item.is_long(selector) {
            return Ok(false);
        }
        if selector.as_bytes().starts_with(b"URL:") || matches!(item.body.board(), Some((_, 0))) {
            return Ok(false);
        }
        if selector.as_bytes().starts_with(b"post/") {
            return self.is_post(alloc, selector, item);
        }
        Ok(true)
    }

    /// Whether each of these items may stand at its selector.
    fn all_may_stand(
        &self,
        alloc: Global,
        entries: &[(&Selector, &Item)],
    ) -> Result<bool, AllocError>
        requires { BoardsFit self.now }
        ensures { IfOk result (λ yes. Decides yes (AllMayStand self.now (map (λ e. (e.0.now, e.1.now)) entries.now))) }
    {
        let mut rest = entries;
        while let [entry, others @ ..] = rest {
            if !self.may_stand(alloc, entry.0, entry.1)? {
                return Ok(false);
            }
            rest = others;
        }
        Ok(true)
    }

    /// The entries stand in byte order of their selectors.
    pub fn in_order(&self)
        ensures { IsTrue (is_sorted byte_cmp self.now.items) }
    {
        let _ = self.items().len();
    }

    /// The items, in byte order of their selectors.
    fn entries(&self, alloc: Global) -> Result<Vec<(&Selector, &Item)>, AllocError>
        ensures { IfOk result (λ all. map (λ e. (e.0.now, e.1.now)) all.items ≡ self.now.items) }
    {
        self.items().iter().collect(alloc)
    }

    /// Host and administrator are valid names, and the port fits.
    fn valid_address(&self)
        ensures host { IsTrue (is_host self.now.host) }
        ensures port { self.now.port < 2 ^ 16 }
        ensures admin { IsTrue (is_admin self.now.admin) }
    {
        let address = self.shown();
        valid_host(address.host);
        valid_admin(address.admin);
    }

    /// Whether the port is not 0, and a menu stands at the empty selector.
    fn has_front(&self) -> bool
        ensures { Decides result (HasFront self.now) }
    {
        match self.item_at(&Selector::root()) {
            Some(item) => self.shown().port > 0 && item.body.is_menu(),
            None => false,
        }
    }

    /// Whether the site keeps all rules of a site: its port is not 0, a menu stands at the empty selector, and each item may stand where it stands.
    pub fn is_valid(&self, alloc: Global) -> Result<bool, AllocError>
        ensures { IfOk result (λ yes. Decides yes (IsSite self.now)) }
    {
        self.in_order();
        self.valid_address();
        let entries = self.entries(alloc)?;
        valid_names(&entries);
        if !self.has_front() {
            return Ok(false);
        }
        self.all_may_stand(alloc, &entries)
    }
}
