//! Whether clients are still there, as far as their connections tell that.

use std::net::TcpStream;

/// Whether the connection was reset. It takes no bytes. A client that has closed its sending side may still read.
pub fn is_broken(stream: &TcpStream) -> bool {
    matches!(stream.take_error(), Ok(Some(_)) | Err(_))
}

/// Whether the client has closed its sending side, and all that it sent before was read. There has to be something to read, or the end.
pub fn is_read_out(stream: &TcpStream) -> bool {
    matches!(stream.peek(&mut [0]), Ok(0))
}
