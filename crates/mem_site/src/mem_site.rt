// A site in memory: what it holds, and how it is read.
ghost use Rattle.std.specs.Prelude.{◌≡◌, ◌<◌, [], None, IfOk, OnOk, IfErr, OnErr, IfSome, IsTrue, option_copied};
ghost use Rattle.host_types.specs.Site.{item_at, with_item, without_item, board_at, fresh_site, IsSite};
ghost use Rattle.host_types.specs.Card.{has_short_views, card_at};
ghost use Rattle.host_types.specs.Fronts.{front_at};
ghost use Rattle.host_types.specs.Address.{address};
ghost use Rattle.host_types.specs.Pins.{viewed_among};
ghost use Rattle.change_plan.specs.LookUps.{HasNoLongNames};
ghost use Rattle.change_plan.specs.Plans.{with_host, with_admin};
ghost use Rattle.mem_site.specs.ShortEntries.{HasShortViews};

use host_types::{Address, Admin, Card, CardFront, Host, Item, Selector, SiteFault, Stamp, Title};
use std::alloc::{AllocError, Global};
use std::collections::BTreeMap;
use std::marker::Model;

/// The bytes of a view of what stands at a selector among these items.
pub(crate) fn viewed_among<'a>(
    items: &'a BTreeMap<Selector, Item>,
    selector: &Selector,
    view: usize,
) -> &'a [u8]
    ensures { result.now ≡ viewed_among items.now.entries selector.now view }
{
    match items.get(selector) {
        Some(item) => item.body.viewed(view),
        None => &[],
    }
}

/// A site in memory. A refused change, or one for which there is not enough memory, changes nothing of it.
#[derive(Drop)]
pub struct MemSite {
    alloc: Global,
    items: BTreeMap<Selector, Item>,
    host: Host,
    port: u16,
    admin: Admin,
}

impl Model for MemSite {
    ghost use Rattle.std.specs.List.{AllByRecursion};
    ghost use Rattle.host_types.specs.Site.{Site};
    ghost use Rattle.mem_site.specs.ShortEntries.{IsShortEntry};

    ghost Value = { Site };

    ghost view = { λ m. record { items = m.items.entries; host = m.host; port = m.port; admin = m.admin } };

    ghost invariant = { λ m. AllByRecursion IsShortEntry m.items.entries };
}

impl MemSite {
    /// A site of which only the top menu is there, without entries. It keeps all rules of a site.
    pub fn new(
        alloc: Global,
        host: Host,
        port: u16,
        admin: Admin,
        title: Title,
        stamp: Stamp,
    ) -> Result<MemSite, AllocError>
        requires { 0 < port }
        ensures fresh { IfOk result (λ m. m ≡ fresh_site host port admin title stamp) }
        ensures valid { IfOk result IsSite }
    {
        let _ = host.as_bytes();
        let _ = admin.as_bytes();
        let _ = title.as_bytes();
        let _ = stamp.seconds();
        let mut items = BTreeMap::new(alloc);
        items.insert(Selector::root(), Item::empty_menu(alloc, title, stamp))?;
        Ok(MemSite {
            alloc,
            items,
            host,
            port,
            admin,
        })
    }

    /// A site of no items under these names. It keeps no rules yet: `insert` puts items, and `is_valid` tells whether they hold.
    pub fn empty(alloc: Global, host: Host, port: u16, admin: Admin) -> MemSite
        ensures { result ≡ record { items = []; host = host; port = port; admin = admin } }
    {
        MemSite {
            alloc,
            items: BTreeMap::new(alloc),
            host,
            port,
            admin,
        }
    }

    /// What stands at a selector.
    pub(crate) fn item_at(&self, selector: &Selector) -> Option<&Item>
        ensures item { option_copied result ≡ item_at self.now selector.now }
        ensures short { IfSome result (λ item. HasShortViews item.now) }
    {
        match self.items.get(selector) {
            Some(item) => Some(item),
            None => None,
        }
    }

    /// A selector of over 255 bytes has nothing.
    pub(crate) fn long_selectors(&self)
        ensures { HasNoLongNames self.now }
    {
        let _items = &self.items;
    }

    /// The card of what stands at a selector.
    pub(crate) fn card_at(&self, selector: &Selector) -> Result<Option<Card>, AllocError>
        ensures { IfOk result (λ card. card ≡ card_at self.now selector.now) }
    {
        match self.item_at(selector) {
            Some(item) => Ok(Some(item.card(self.alloc)?)),
            None => Ok(None),
        }
    }

    /// What the line of a menu says of what stands at a selector.
    pub(crate) fn front_at(&self, selector: &Selector) -> Result<Option<CardFront>, AllocError>
        ensures { IfOk result (λ front. front ≡ front_at self.now selector.now) }
    {
        match self.item_at(selector) {
            Some(item) => Ok(Some(item.front()?)),
            None => Ok(None),
        }
    }

    /// A copy of all items.
    pub(crate) fn copied(&self) -> Result<BTreeMap<Selector, Item>, AllocError>
        ensures { IfOk result (λ items. items.entries ≡ self.now.items) }
    {
        self.items.clone()
    }

    /// A copy of the whole site.
    pub(crate) fn copy(&self) -> Result<MemSite, AllocError>
        ensures { IfOk result (λ m. m ≡ self.now) }
    {
        Ok(MemSite {
            alloc: self.alloc,
            items: self.items.clone()?,
            host: self.host.clone()?,
            port: self.port,
            admin: self.admin.clone()?,
        })
    }

    /// Where the site takes its memory.
    pub fn alloc(&self) -> Global {
        self.alloc
    }

    /// All items by their selectors, in byte order.
    pub fn items(&self) -> &BTreeMap<Selector, Item>
        ensures { result.now.entries ≡ self.now.items }
    {
        let items = &self.items;
        items
    }

    pub(crate) fn shown(&self) -> Address<'_>
        ensures { result ≡ address self.now }
    {
        Address {
            host: &self.host,
            port: self.port,
            admin: &self.admin,
        }
    }

    /// How many posts the board at a selector keeps, and the number of the next.
    pub(crate) fn board(&self, selector: &Selector) -> Option<(u16, u64)>
        ensures { result ≡ board_at self.now selector.now }
    {
        match self.item_at(selector) {
            Some(item) => item.body.board(),
            None => None,
        }
    }

    /// Puts an item at a selector as it is, in place of what stands there, whatever the rules of a site say: `is_valid` tells whether they hold. Its only fault is that of memory, and then nothing is changed.
    pub fn insert(&mut self, selector: Selector, item: Item) -> Result<(), SiteFault>
        requires { IsTrue (has_short_views item.body) }
        ensures ok { OnOk result (self.new ≡ with_item self.old selector item) }
        ensures err { IfErr result (λ e. (e ≡ SiteFault.Memory) × (self.new ≡ self.old)) }
        ensures absent { OnErr result (item_at self.old selector ≡ None) }
    {
        let _ = selector.as_bytes();
        self.items.insert(selector, item)?;
        Ok(())
    }

    /// Lets nothing stand at a selector.
    pub(crate) fn take_out(&mut self, selector: &Selector)
        ensures { self.new ≡ without_item self.old selector.now }
    {
        let _ = self.items.remove(selector);
    }

    /// Sets the host and the port under which clients find it, where they are given.
    pub(crate) fn set_host(&mut self, name: Option<(Host, u16)>)
        ensures { self.new ≡ with_host self.old name }
    {
        if let Some((host, port)) = name {
            self.host = host;
            self.port = port;
        }
    }

    /// Sets who keeps it, where that is given.
    pub(crate) fn set_admin(&mut self, name: Option<Admin>)
        ensures { self.new ≡ with_admin self.old name }
    {
        if let Some(admin) = name {
            self.admin = admin;
        }
    }
}
