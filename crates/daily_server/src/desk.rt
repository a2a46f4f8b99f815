// Where an office has waits tell of its own sockets. That they do no clause can say: the system holds what is watched.
use crate::ready_listener::{OFFICE_LISTENER, OFFICE_WIRE};
use mio::event::Source;
use mio::{Interest, Registry};
use std::io;

/// By it an office has the waits of a service tell of its own sockets: of where it listens, and of the connection that it has.
#[derive(Drop)]
pub struct Desk<'a> {
    registry: &'a Registry,
}

impl<'a> Desk<'a> {
    /// The desk of the service whose waits have these sources.
    pub(crate) fn new(registry: &'a Registry) -> Self {
        Desk { registry }
    }

    /// Has waits tell of who comes to an office's listener.
    pub fn watch_listener<S: Source>(&self, listener: &mut S) -> io::Result<()>
        ensures kept { S.keeps listener.old listener.new }
    {
        self.registry
            .register(listener, OFFICE_LISTENER, Interest::READABLE)
    }

    /// Has waits tell of what an office's connection sends and takes.
    pub fn watch_wire<S: Source>(&self, wire: &mut S) -> io::Result<()>
        ensures kept { S.keeps wire.old wire.new }
    {
        let both = Interest::READABLE | Interest::WRITABLE;
        self.registry.register(wire, OFFICE_WIRE, both)
    }
}
