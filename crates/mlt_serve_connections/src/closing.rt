//! How a connection ends.

use mlt_text::MAX_INPUT;
use mlt_work_waits::tuning::LINGER_SECONDS;
use std::io;
use std::io::{ErrorKind, Read};
use std::net::{Shutdown, TcpStream};
use std::time::{Clock, Duration, Instant};

/// Says to a client that no answers follow, and reads away what it still sends. A connection that is closed over bytes that
/// nobody has read is reset, and the client may lose the last answers with it. It ends with the client's input, after a second,
/// or once 16,777,216 bytes came.
pub fn lingering_close<C: Clock>(clock: &C, stream: &TcpStream) {
    // Where this fails the client is gone, or it goes on longer than is waited for: either way the connection is closed now.
    let _ = read_away(clock, stream);
}

fn read_away<C: Clock>(clock: &C, stream: &TcpStream) -> io::Result<()> {
    stream.shutdown(Shutdown::Write)?;
    let linger = Duration::from_secs(LINGER_SECONDS);
    let start = Instant::now(clock)?;
    let mut reader = stream;
    let mut buffer = [0; 4096];
    let mut total: usize = 0;
    for _ in 0..MAX_INPUT {
        let left = linger.saturating_sub(start.elapsed(clock)?);
        if left.is_zero() {
            return Ok(());
        }
        stream.set_read_timeout(Some(left))?;
        match reader.read(&mut buffer) {
            Ok(0) => return Ok(()),
            Ok(count) => total = total.saturating_add(count),
            // As after a stop of the program.
            Err(error) if error.kind() == ErrorKind::Interrupted => (),
            Err(error) => return Err(error),
        }
        if total >= MAX_INPUT {
            return Ok(());
        }
    }
    Ok(())
}

/// Reads away what a client has sent, from a stream that does not wait. It answers whether the client has gone, or counts as gone since
/// 16,777,216 bytes came at once.
pub fn read_away_now(stream: &TcpStream) -> bool {
    let mut reader = stream;
    let mut buffer = [0; 4096];
    for _ in 0..MAX_INPUT / 4096 {
        match reader.read(&mut buffer) {
            Ok(0) => return true,
            Ok(_) => (),
            Err(error) => return error.kind() != ErrorKind::WouldBlock,
        }
    }
    true
}
