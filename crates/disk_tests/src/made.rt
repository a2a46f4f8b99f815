// Images in memory, and changes of their pairs, for the program and the tests.
use host_types::{Admin, Bytes, Host, Stamp};
use image_commands::{SiteNames, format_image};
use page_store::{Banner, Edit, Keeper, KeeperFault, LONGEST_KEY, LONGEST_VALUE};
use sector_device::MemDisk;
use std::alloc::Global;

/// 28 July 1993, 17:02:01.
pub const EVENING: u64 = 743_878_921;

/// A banner of flat pages.
pub fn banner(host: &[u8], port: u16, admin: &[u8]) -> Option<Banner> {
    Some(Banner {
        version: 0,
        host: Host::new(host).ok()?,
        port,
        admin: Admin::new(admin).ok()?,
    })
}

/// Makes an image of so many pages whose site has a top menu without entries.
pub fn make_site(alloc: Global, disk: &mut MemDisk, pages: u32) -> Result<(), KeeperFault> {
    let names = SiteNames::new(b"localhost", b"Ada <ada@localhost>", b"The top of it");
    let (Ok(names), Ok(stamp)) = (names, Stamp::new(EVENING)) else {
        return Err(KeeperFault::Version);
    };
    format_image(alloc, disk, pages, names, 7070, stamp)
}

/// Puts a value at a key, or takes it away, whatever site is kept. A key or a value of no valid length is `Version`, so that callers need not prove one.
#[tactic(auto, unfolding(page_store::specs::Batch::is_value))]
pub fn change<K: Keeper>(
    alloc: Global,
    keeper: &mut K,
    key: &[u8],
    value: Option<&[u8]>,
) -> Result<(), KeeperFault> {
    let banner = keeper.banner().clone()?;
    if key.is_empty() || key.len() > LONGEST_KEY || banner.port == 0 {
        return Err(KeeperFault::Version);
    }
    let key = Bytes::from_slice(alloc, key)?;
    let value = match value {
        Some(bytes) => {
            if bytes.len() > LONGEST_VALUE {
                return Err(KeeperFault::Version);
            }
            Some(Bytes::from_slice(alloc, bytes)?)
        }
        None => None,
    };
    keeper.commit(&[Edit { key, value }], banner)
}

/// What stands at the key `k`: none, or its first byte.
pub fn found<K: Keeper>(keeper: &mut K) -> Result<Option<u8>, KeeperFault> {
    let mut buffer = [0; LONGEST_VALUE];
    match keeper.get(b"k", &mut buffer)? {
        Some(_) => Ok(Some(buffer[0])),
        None => Ok(None),
    }
}
