//! A network whose streams have little patience.

use std::io;
use std::io::{Read, Write};
use std::net::{Net, OpenListener, OpenStream, SocketAddr, TcpListener, TcpStream};
use std::os::fd::{AsRawFd, RawFd};
use std::time::Duration;

/// How long a stream waits that was told how long it may.
pub(crate) fn patience() -> Duration {
    Duration::from_millis(200)
}

/// A stream. It takes any limit on its waiting as that of `patience`, and without one waits as long as it takes.
#[derive(Drop)]
pub(crate) struct HastyStream {
    stream: TcpStream,
}

impl Read for HastyStream {
    fn read(&mut self, buf: &mut [u8]) -> io::Result<usize> {
        self.stream.read(buf)
    }
}

impl Write for HastyStream {
    fn write(&mut self, buf: &[u8]) -> io::Result<usize> {
        self.stream.write(buf)
    }

    fn flush(&mut self) -> io::Result<()> {
        Ok(())
    }
}

impl AsRawFd for HastyStream {
    fn as_raw_fd(&self) -> RawFd {
        self.stream.as_raw_fd()
    }
}

impl OpenStream for HastyStream {
    fn set_read_timeout(&self, dur: Option<Duration>) -> io::Result<()> {
        self.stream.set_read_timeout(dur.map(|_| patience()))
    }

    fn set_write_timeout(&self, dur: Option<Duration>) -> io::Result<()> {
        self.stream.set_write_timeout(dur.map(|_| patience()))
    }

    fn set_nodelay(&self, nodelay: bool) -> io::Result<()> {
        self.stream.set_nodelay(nodelay)
    }
}

/// A listener for such streams.
#[derive(Drop)]
pub(crate) struct HastyListener {
    listener: TcpListener,
}

impl AsRawFd for HastyListener {
    fn as_raw_fd(&self) -> RawFd {
        self.listener.as_raw_fd()
    }
}

impl OpenListener for HastyListener {
    type Stream = HastyStream;

    fn accept(&self) -> io::Result<(HastyStream, SocketAddr)> {
        let (stream, from) = self.listener.accept()?;
        Ok((HastyStream { stream }, from))
    }
}

/// The system's network, with such streams.
#[derive(Drop)]
pub(crate) struct Hasty {
    pub(crate) rt: HostRuntime,
}

impl Net for Hasty {
    type Stream = HastyStream;

    type Listener = HastyListener;

    fn bind(&self, addr: SocketAddr) -> io::Result<HastyListener> {
        let listener = self.rt.bind(addr)?;
        Ok(HastyListener { listener })
    }

    fn connect(&self, addr: SocketAddr) -> io::Result<HastyStream> {
        let stream = self.rt.connect(addr)?;
        Ok(HastyStream { stream })
    }
}
