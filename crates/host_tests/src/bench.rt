// What the calls of a run share.
use host_script::small_site;
use host_types::Stamp;
use mem_site::MemSite;
use request_reader::Reader;
use std::alloc::{AllocError, Global};

/// A site in memory, the moment of its changes, and a reader of requests.
#[derive(Drop)]
pub(crate) struct Bench {
    pub alloc: Global,
    pub site: MemSite,
    pub now: Stamp,
    pub reader: Reader,
}

impl Bench {
    pub fn new(alloc: Global) -> Result<Bench, AllocError> {
        Ok(Bench {
            alloc,
            site: small_site(alloc)?,
            now: Stamp::start(),
            reader: Reader::new(alloc),
        })
    }
}
