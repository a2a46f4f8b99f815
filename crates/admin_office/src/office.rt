// The administrator's office.
ghost use Rattle.std.specs.Prelude.{◌≡◌, None};
ghost use Rattle.admin_office.specs.Offices.{in_still, IsNewOffice, Receives, Works, pace_of};

use crate::gate::AdminGate;
use crate::turn::serve;
use crate::{FaultTexts, PatientWire, Request};
use daily_server::{Desk, Office, Pace};
use group_hub::Hub;
use std::alloc::Global;
use turns::Clock;
use word_search::SearchKeeper;

/// The administrator's office: a gate, one request at a time, and how changes are told of that were not made.
#[derive(Drop)]
pub struct AdminOffice<G, W, T> {
    alloc: Global,
    texts: T,
    gate: G,
    request: Option<Request<W>>,
    /// Somebody may be at the gate.
    knocks: bool,
}

/// It is in no more where it is over.
fn in_still<W: Drop>(request: Request<W>) -> Option<Request<W>>
    ensures { result ≡ in_still request }
{
    if request.stage.is_closed() {
        None
    } else {
        Some(request)
    }
}

impl<W: PatientWire + Drop, G: AdminGate<W>, T: FaultTexts> AdminOffice<G, W, T> {
    /// An office of which nothing was asked yet.
    pub fn new(alloc: Global, gate: G, texts: T) -> Self
        ensures { IsNewOffice gate texts result }
    {
        AdminOffice {
            alloc,
            texts,
            gate,
            request: None,
            knocks: true,
        }
    }

    /// Nobody is in: where somebody may be at the gate, it is asked.
    fn receive(&mut self, desk: &Desk<'_>, now: u64)
        requires { self.old.request ≡ None }
        ensures received { Receives W.calls G.answers self.old.knocks now self.old.gate self.new }
        ensures texts { self.new.texts ≡ self.old.texts }
    {
        if !self.knocks {
            return;
        }
        match self.gate.next(desk) {
            Some(wire) => {
                self.request = Some(Request::new(self.alloc, wire, now));
            }
            None => self.knocks = false,
        }
    }
}

impl<W: PatientWire + Drop, G: AdminGate<W>, T: FaultTexts> Office for AdminOffice<G, W, T> {
    ghost lets_wait = { pace_of };

    ghost works = { Works W.calls G.answers T.says };

    fn pace(&self) -> Pace {
        match &self.request {
            Some(request) if request.rests => Pace::Waits,
            Some(_) => Pace::Busy,
            None if self.knocks => Pace::Busy,
            None => Pace::Idle,
        }
    }

    fn turn<S: SearchKeeper, C: Clock>(
        &mut self,
        desk: &Desk<'_>,
        hub: &mut Hub<S>,
        clock: &mut C,
        called: bool,
        now: u64,
    ) {
        self.knocks |= called;
        match self.request.take() {
            Some(request) => {
                let request = serve(self.alloc, &self.texts, request, hub, clock, called, now);
                self.request = in_still(request);
            }
            None => self.receive(desk, now),
        }
    }
}
