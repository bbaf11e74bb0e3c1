//! Where the clients of a door come in.

use crate::client::Client;
use crate::ending::Ending;
use crate::listening::{Accepted, accept, pause};
use crate::room::{Called, Place};
use mio::unix::SourceFd;
use mio::{Events, Interest, Poll, Token};
use std::alloc::Global;
use std::net::{Net, TcpListener, TcpStream};
use std::os::fd::AsRawFd;
use std::sync::Arc;
use std::time::Duration;
use std::{io, rt};

// How long one wait for a client takes at most, where the end may be asked for, in milliseconds.
const WAIT_MILLISECONDS: u64 = 500;

/// Where the clients of a door come in.
#[derive(Drop)]
pub(crate) enum Entrance {
    /// At a listener, each for all that it sends.
    Listener(TcpListener),
    /// The same until the end is asked for.
    Watched(Watch),
    /// In a waiting room, each for a turn.
    Room(Place),
}

/// A listener that is watched beside the end.
#[derive(Drop)]
pub(crate) struct Watch {
    listener: TcpListener,
    poll: Poll,
    events: Events,
    ending: Arc<Ending, Global>,
}

impl Watch {
    /// A watch over this listener.
    pub(crate) fn new<R: Net>(
        rt: &R,
        alloc: Global,
        listener: TcpListener,
        ending: Arc<Ending, Global>,
    ) -> io::Result<Watch> {
        listener.set_nonblocking(true)?;
        let poll = Poll::new(rt)?;
        let fd = listener.as_raw_fd();
        poll.registry()
            .register(&mut SourceFd(&fd), Token(0), Interest::READABLE)?;
        Ok(Watch {
            listener,
            poll,
            events: Events::with_capacity(alloc, 1)?,
            ending,
        })
    }

    // The next stream of a client. None where the end was asked for, or the listener failed.
    fn next<R: rt::Clock + rt::Files>(&mut self, rt: &R) -> Option<TcpStream> {
        for _ in 0..u64::MAX {
            if self.ending.is_asked(rt) {
                return None;
            }
            match accept(&self.listener) {
                Accepted::Client(stream) => return Some(stream),
                Accepted::Nobody => {
                    let patience = Some(Duration::from_millis(WAIT_MILLISECONDS));
                    let _ = self.poll.poll(&mut self.events, patience);
                }
                Accepted::Shortage => pause(rt),
                Accepted::Failed => return None,
            }
        }
        None
    }
}

// The next stream of a client at a listener whose accept waits.
fn next_stream<R: rt::Clock>(rt: &R, listener: &TcpListener) -> Option<TcpStream> {
    for _ in 0..u64::MAX {
        match accept(listener) {
            Accepted::Client(stream) => return Some(stream),
            Accepted::Shortage => pause(rt),
            Accepted::Nobody | Accepted::Failed => return None,
        }
    }
    None
}

// A client for all that it sends.
fn for_all(alloc: Global, stream: TcpStream, patience: Duration) -> Option<Called> {
    let client = Client::waiting(stream);
    client.set_up(patience);
    Some(Called {
        client: Arc::new(alloc, client).ok()?,
        left: None,
        number: 0,
        is_closed: false,
        is_cut: false,
    })
}

impl Entrance {
    /// The next client that comes in. One read of what it sends, or one write to it, waits no longer than that.
    pub(crate) fn next<R: rt::Clock + rt::Files>(
        &mut self,
        rt: &R,
        alloc: Global,
        patience: Duration,
    ) -> Option<Called> {
        match self {
            Entrance::Listener(listener) => for_all(alloc, next_stream(rt, listener)?, patience),
            Entrance::Watched(watch) => for_all(alloc, watch.next(rt)?, patience),
            Entrance::Room(place) => {
                let called = place.next(rt)?;
                called.client.begin();
                Some(called)
            }
        }
    }

    /// Takes back a client that was given. One that may go on goes back into the waiting room; else leave is taken of it, which is waited for where
    /// there is no such room.
    pub(crate) fn take_back<R: rt::Clock + rt::Files>(&self, rt: &R, called: Called) {
        match self {
            Entrance::Room(place) => {
                let may_go_on = called.client.rests() && !called.is_cut;
                if may_go_on && !place.room.is_ending(rt) {
                    place.room.take_back(rt, called);
                } else {
                    place.room.see_off(rt, called);
                }
            }
            _ => called.client.take_leave(rt),
        }
    }

    /// Takes leave of those in the waiting room who had their last reply.
    pub(crate) fn close<R: rt::Clock>(&self, rt: &R) {
        match self {
            Entrance::Room(place) => place.room.dismiss(rt, false),
            _ => {}
        }
    }
}
