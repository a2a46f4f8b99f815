// The pairs of a site once they are in memory.
ghost use Rattle.std.specs.Prelude.{◌≡◌, false, Some, map, IfOk, IsTrue, Decides, MatchOption};
ghost use Rattle.page_store.specs.Batch.{value_at};
ghost use Rattle.page_store.specs.Keys.{rises};
ghost use Rattle.page_store.specs.Pages.{key_of};
ghost use Rattle.common_types.specs.CrashStates.{nothing};
ghost use Rattle.site_store.specs.Opening.{pairs_state, ValuesFit};

use crate::SiteOpenFault;
use crate::likely::LikelyPlaces;
use crate::value_lookup::ValueLookup;
use page_store::{Banner, LONGEST_VALUE, Pair, keys_rise};
use site_records::Key;
use std::alloc::{AllocError, Global};
use std::marker::Model;

/// All pairs of a key-value store, and its banner. The keys rise, and each value fits a buffer of 1,024 bytes.
#[derive(Drop)]
pub(crate) struct ReadPairs<'a> {
    pairs: &'a [Pair],
    banner: &'a Banner,
    likely: LikelyPlaces,
}

impl<'a> Model for ReadPairs<'a> {
    ghost use Rattle.std.specs.Prelude.{List, IsTrue, map};
    ghost use Rattle.page_store.specs.Keys.{rises};
    ghost use Rattle.page_store.specs.Pages.{Pair, key_of};
    ghost use Rattle.page_store.specs.declared.banner.Banner.{Banner};
    ghost use Rattle.site_store.specs.Opening.{ValuesFit};

    ghost Value = { List Pair × Banner };

    ghost view = { λ r. (r.pairs.now, r.banner.now) };

    ghost invariant = { λ r. IsTrue (rises (map key_of r.pairs.now)) × ValuesFit r.pairs.now };
}

impl<'a> ReadPairs<'a> {
    /// These pairs under this banner; none where the keys don't rise.
    pub(crate) fn new(
        alloc: Global,
        banner: &'a Banner,
        pairs: &'a [Pair],
    ) -> Result<Option<Self>, AllocError>
        requires fit { ValuesFit pairs.now }
        ensures { IfOk result (λ o. MatchOption o (rises (map key_of pairs.now) ≡ false) (λ read. read ≡ (pairs.now, banner.now))) }
    {
        if !keys_rise(pairs) {
            return Ok(None);
        }
        let likely = LikelyPlaces::new(alloc, pairs.len())?;
        Ok(Some(ReadPairs {
            pairs,
            banner,
            likely,
        }))
    }

    /// All pairs, in the order of their keys.
    pub(crate) fn pairs(&self) -> &'a [Pair]
        ensures pairs { result.now ≡ self.now.0 }
        ensures rise { IsTrue (rises (map key_of self.now.0)) }
    {
        self.pairs
    }

    /// Version, host, port and administrator.
    pub(crate) fn banner(&self) -> &'a Banner
        ensures { result.now ≡ self.now.1 }
    {
        self.banner
    }

    /// Whether this value stands at this key.
    pub(crate) fn has(&mut self, key: &Key, value: &[u8]) -> bool
        ensures has { Decides result (value_at self.old.0 key.now ≡ Some value.now) }
        ensures same { self.new ≡ self.old }
    {
        match self.likely.place_of(self.pairs, key.as_bytes()) {
            Some(place) => self.pairs[place].value() == value,
            None => false,
        }
    }
}

impl ValueLookup for ReadPairs<'_> {
    ghost use Rattle.std.specs.Prelude.{ℕ};

    ghost store_state = { λ read. pairs_state read.0 read.1 };

    ghost may_need = { λ read batch need. ⊥ };

    ghost CrashState = { ℕ };

    ghost crash_states = { λ read. nothing };

    fn look_up(
        &mut self,
        key: &Key,
        buffer: &mut [u8; LONGEST_VALUE],
    ) -> Result<Option<usize>, SiteOpenFault> {
        let Some(place) = self.likely.place_of(self.pairs, key.as_bytes()) else {
            return Ok(None);
        };
        let value = self.pairs[place].value();
        buffer[..value.len()].copy_from_slice(value);
        Ok(Some(value.len()))
    }
}
