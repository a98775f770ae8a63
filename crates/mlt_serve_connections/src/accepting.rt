//! Connections, as they come to a listener.

ghost use Rattle.std.specs.Prelude.{◌≡◌};
ghost use Rattle.mlt_serve_connections.specs.Accepts.{is_among, of_one_connection, of_the_system};

use mlt_work_waits::tuning::BACKLOG;
use std::io;
use std::net::{TcpListener, TcpStream};
use std::os::fd::AsRawFd;

/// The errors of accept(2) of one connection: EPERM, EINTR and ECONNABORTED, and those that Linux has from the network, ENONET, EPROTO,
/// ENOPROTOOPT, EOPNOTSUPP, ENETDOWN, ENETUNREACH, EHOSTDOWN and EHOSTUNREACH.
const OF_ONE_CONNECTION: [i32; 11] = [1, 4, 103, 64, 71, 92, 95, 100, 101, 112, 113];

/// Those of a system that has no memory, descriptors or buffers left: ENOMEM, EMFILE, ENFILE and ENOBUFS.
const OF_THE_SYSTEM: [i32; 4] = [12, 24, 23, 105];

/// What became of an accept.
#[derive(Drop)]
pub enum Accepted {
    /// A connection.
    Stream(TcpStream),
    /// It failed by that connection alone, so it is to be tried again.
    Again(io::Error),
    /// It failed for want of descriptors or buffers, so it is to be tried again after a pause.
    Pause(io::Error),
    /// The listener accepts no more connections, as after `refuse_all`.
    Closed(io::Error),
    /// It failed by the listener otherwise, and so will each that follows.
    Failed(io::Error),
}

/// The next connection, once there is one. What accept(2) says of its errors is done: those of the network count as those of one
/// connection.
pub fn accept(listener: &TcpListener) -> Accepted {
    match listener.accept() {
        Ok((stream, _)) => Accepted::Stream(stream),
        Err(error) => match error.raw_os_error() {
            Some(code) if is_tried_again(code) => Accepted::Again(error),
            Some(code) if does_pause(code) => Accepted::Pause(error),
            Some(libc::EINVAL) => Accepted::Closed(error),
            _ => Accepted::Failed(error),
        },
    }
}

/// Whether an accept that failed so is to be tried again at once.
fn is_tried_again(code: i32) -> bool
    ensures { result ≡ is_among of_one_connection code }
{
    OF_ONE_CONNECTION.contains(&code)
}

/// Whether an accept that failed so is to be tried again after a pause.
fn does_pause(code: i32) -> bool
    ensures { result ≡ is_among of_the_system code }
{
    OF_THE_SYSTEM.contains(&code)
}

/// From now on more connections may wait for an accept, 4,096 of them if the system lets them.
pub fn widen_backlog(listener: &TcpListener) {
    // Where it fails, as many may wait as before.
    let _ = libc::net::listen(listener.as_raw_fd(), BACKLOG);
}

/// From now on the listener accepts no connection: a thread that waits in an accept of it fails, and clients are refused.
pub fn refuse_all(listener: &TcpListener) {
    // It fails only where that was done before.
    let _ = libc::net::shutdown(listener.as_raw_fd(), libc::net::SHUT_RDWR);
}
