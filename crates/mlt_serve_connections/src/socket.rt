//! The socket of one client.

ghost use Rattle.std.specs.Prelude.{◌≡◌, ◌≤◌, IfSome, Ok, length};
ghost use Rattle.std.specs.Io.{ReadsAtMost, WritesAtMost};

use crate::lines::ends_as_http;
use crate::spin_policy::SpinPolicy;
use crate::thread_limit::RunningThread;
use libc::net::{POLLIN, poll};
use libc::types::pollfd;
use mlt_text_words::{MOST_LINE_BYTES, find_lf};
use mlt_work_waits::tuning::{READ_SPINS, SILENCE_MILLISECONDS, WRITE_MILLISECONDS};
use std::alloc::AllocError;
use std::cell::{Cell, RefCell};
use std::hint::spin_loop;
use std::io;
use std::io::{ErrorKind, Read, Write};
use std::net::TcpStream;
use std::os::fd::AsRawFd;
use std::sync::Wait;
use std::time::{Clock, Duration, Instant};

/// How a read or a write failed.
#[derive(Clone, Copy)]
pub enum SocketFailure {
    /// No whole line came, or nothing could go, for the idle time.
    Idle,
    /// The first line was that of an HTTP request.
    Http,
    /// Any other way.
    Broken,
}

/// What a client keeps from one of its sessions to the next.
#[derive(Drop)]
pub struct Remains {
    /// Whether its first line has come.
    pub has_begun: bool,
    /// The bytes behind the last LF, which are not answered: 200 at most.
    pub tail: Vec<u8>,
    /// Since when it waits for a line that is answered, if it does, and the wait has an end.
    pub idle_since: Option<Instant>,
    /// Whether its next transaction begins with a pause, since the last one gave up.
    pub is_to_pause: bool,
    /// The timestamp that its next transaction keeps, if it does.
    pub timestamp: Option<u64>,
}

impl Remains {
    /// Those of a new client, of which nothing was read. The vector is empty.
    pub fn new(tail: Vec<u8>, idle_since: Option<Instant>) -> Remains {
        Remains {
            has_begun: false,
            tail,
            idle_since,
            is_to_pause: false,
            timestamp: None,
        }
    }
}

/// A connection on which a read first looks for bytes for some microseconds, so that a client that sends its next line at once finds
/// its session awake. It looks while there are fewer sessions than processors.
///
/// Where its session may leave its thread to others, it does so at a read between two transactions: if threads are short, no bytes come for
/// some milliseconds, or the first line comes in pieces. Such a read is the last, and tells the end of the input.
///
/// An idle time begins at the first read after an answer was written: bytes that do not make up a line that is answered do not prolong
/// it. Where a socket has an idle time, a stop of the program interrupts what waits there. It waits on then, for what is left of the
/// time.
#[derive(Drop)]
pub struct Socket<'a, C: Wait + Clock> {
    clock: &'a C,
    stream: &'a TcpStream,
    spin_policy: &'a SpinPolicy,
    /// For how long a read or a write waits, if that has an end.
    idle: Option<Duration>,
    /// Since when it waits for a line that is answered, if it does, and the wait has an end.
    since: Cell<Option<Instant>>,
    /// Whether a read or a write that can't go on at once waits until it can.
    waits: Cell<bool>,
    /// Whether its first line has come.
    has_begun: Cell<bool>,
    /// How the last one that failed did.
    failed: Cell<Option<SocketFailure>>,
    /// Whether its session may leave its thread to others.
    may_park: bool,
    /// Whether the next read is between two transactions.
    is_between: Cell<bool>,
    /// Whether the session has read.
    has_read: Cell<bool>,
    /// Whether its session leaves: there is nothing more to read for it.
    is_parked: Cell<bool>,
    /// The bytes behind the last LF that was read, as far as the session has told them.
    tail: RefCell<Vec<u8>>,
    /// Whether these were read by an earlier session, so that the next read begins with them.
    has_front: Cell<bool>,
}

impl<'a, C: Wait + Clock> Socket<'a, C> {
    /// The socket of a client whose session begins, as earlier sessions have left it. It was made ready.
    pub fn new(
        clock: &'a C,
        stream: &'a TcpStream,
        spin_policy: &'a SpinPolicy,
        idle: Option<Duration>,
        may_park: bool,
        remains: Remains,
    ) -> Socket<'a, C> {
        let Remains {
            has_begun,
            tail,
            idle_since,
            is_to_pause: _,
            timestamp: _,
        } = remains;
        spin_policy.enter();
        let has_front = !tail.is_empty();
        Socket {
            clock,
            stream,
            spin_policy,
            idle,
            since: Cell::new(idle_since),
            waits: Cell::new(true),
            has_begun: Cell::new(has_begun),
            failed: Cell::new(None),
            may_park,
            is_between: Cell::new(false),
            has_read: Cell::new(false),
            is_parked: Cell::new(false),
            tail: RefCell::new(tail),
            has_front: Cell::new(has_front),
        }
    }

    /// How the last read or write that failed did, if one did.
    pub fn failure(&self) -> Option<SocketFailure> {
        self.failed.get()
    }

    /// Notes how a read or a write failed, if it did.
    fn note(&self, done: &io::Result<usize>) {
        if let Err(error) = done {
            self.failed.set(Some(failure_of(error.kind())));
        }
    }

    /// The session ends. Reads and writes of the stream wait again. Where the session has left, so that another one is to go on, it returns
    /// what that begins with, with this pause and timestamp.
    pub fn close(self, is_to_pause: bool, timestamp: Option<u64>) -> Option<Remains> {
        // Where this fails, what the client still sends is not waited for.
        let _ = self.put_waits(true);
        self.spin_policy.leave();
        let Socket {
            since,
            has_begun,
            is_parked,
            tail,
            ..
        } = self;
        is_parked.get().then_some(Remains {
            has_begun: has_begun.get(),
            tail: tail.into_inner(),
            idle_since: since.get(),
            is_to_pause,
            timestamp,
        })
    }

    /// From now on a read or a write that can't go on at once waits, or it fails.
    fn put_waits(&self, waits: bool) -> io::Result<()> {
        if self.waits.get() != waits {
            self.stream.set_nonblocking(!waits)?;
            self.waits.set(waits);
        }
        Ok(())
    }

    /// What a read gives at one of some looks, if it gives anything but that it would wait.
    fn spin(&self, buf: &mut [u8]) -> Option<io::Result<usize>>
        ensures { IfSome result (λ read. ReadsAtMost read buf.new) }
    {
        let mut stream = self.stream;
        for _ in 0..READ_SPINS {
            let read = stream.read(buf);
            if !comes_later(&read) {
                return Some(read);
            }
            spin_loop();
        }
        None
    }

    /// The next read is between two transactions. These bytes were read behind the last LF, and are not answered.
    pub fn pause(&self, held: &[u8]) {
        if self.may_park {
            // What an earlier session has read is still to come. Where memory is refused, the session stays.
            let is_kept = self.has_front.get() || self.put_tail(held).is_ok();
            self.is_between.set(is_kept);
        }
    }

    /// Keeps these bytes alone.
    fn put_tail(&self, bytes: &[u8]) -> Result<(), AllocError> {
        let Ok(mut tail) = self.tail.try_borrow_mut() else {
            return Err(AllocError);
        };
        tail.clear();
        tail.extend_from_slice(bytes)
    }

    /// Puts what an earlier session has read to the front, and returns how many bytes that are.
    fn take_front(&self, buf: &mut [u8]) -> usize
        ensures { (result ≤ length buf.new) × (length buf.new ≡ length buf.old) }
    {
        if !self.has_front.replace(false) {
            return 0;
        }
        let Ok(mut tail) = self.tail.try_borrow_mut() else {
            return 0;
        };
        let count = tail.len().min(buf.len());
        buf[..count].copy_from_slice(&tail[..count]);
        tail.clear();
        count
    }

    /// Reads bytes, once there are some. At first it waits for a whole line, and fails where that is one of an HTTP request. Where the
    /// session leaves, there is nothing more to read, and what has come of a line is kept.
    pub fn read(&self, thread: &RunningThread<'_, C>, buf: &mut [u8]) -> io::Result<usize>
        ensures { ReadsAtMost result buf.new }
    {
        if self.is_parked.get() {
            return Ok(0);
        }
        let front = self.take_front(buf);
        let read = if self.has_begun.get() {
            self.read_behind(thread, buf, front)
        } else {
            self.read_first(thread, buf, front)
        };
        self.note(&read);
        self.is_between.set(false);
        let count = read?;
        if !self.is_parked.get() {
            self.has_begun.set(true);
            return Ok(count);
        }
        if count > 0 {
            self.put_tail(&buf[..count])?;
        }
        Ok(0)
    }

    /// Reads behind so many bytes, and counts them in.
    fn read_behind(
        &self,
        thread: &RunningThread<'_, C>,
        buf: &mut [u8],
        front: usize,
    ) -> io::Result<usize>
        requires { front ≤ length buf.old }
        ensures { ReadsAtMost result buf.new }
    {
        let count = self.read_some(thread, &mut buf[front..])?;
        Ok(front + count)
    }

    /// Reads behind so many bytes until an LF has come, or more bytes than a line may have, or the end of the input.
    fn read_first(
        &self,
        thread: &RunningThread<'_, C>,
        buf: &mut [u8],
        front: usize,
    ) -> io::Result<usize>
        requires { front ≤ length buf.old }
        ensures { ReadsAtMost result buf.new }
    {
        let mut held = front;
        for _ in 0..=MOST_LINE_BYTES {
            let count = self.read_some(thread, &mut buf[held..])?;
            held += count;
            if let Some(end) = find_lf(&buf[..held]) {
                if ends_as_http(&buf[..end]) {
                    return Err(io::Error::from(ErrorKind::InvalidData));
                }
                break;
            }
            if count == 0 || held > MOST_LINE_BYTES {
                break;
            }
            if self.may_park {
                // The rest of the line is read by another session.
                self.park()?;
                break;
            }
        }
        Ok(held)
    }

    fn read_some(&self, thread: &RunningThread<'_, C>, buf: &mut [u8]) -> io::Result<usize>
        ensures { ReadsAtMost result buf.new }
    {
        let has_read = self.has_read.replace(true);
        if has_read && self.is_between.get() && thread.is_short() {
            return self.park();
        }
        if self.spin_policy.allows_spinning() && self.put_waits(false).is_ok() {
            if let Some(read) = self.spin(buf) {
                return read;
            }
        }
        // A connection was taken since there is something to read.
        if has_read {
            thread.block();
        }
        let read = self.wait_and_read(buf);
        thread.go_on();
        read
    }

    /// Reads bytes once there are some. Between two transactions it waits for some milliseconds where the session may leave.
    fn wait_and_read(&self, buf: &mut [u8]) -> io::Result<usize>
        ensures { ReadsAtMost result buf.new }
    {
        self.put_waits(true)?;
        let mut stream = self.stream;
        if self.since.get().is_none() || self.may_park {
            self.begin_wait()?;
            let read = stream.read(buf);
            if !self.is_to_wait(&read) {
                return read;
            }
            if self.is_between.get() {
                return self.park();
            }
        }
        for _ in 0..u64::MAX {
            self.put_rest(self.since.get())?;
            let read = stream.read(buf);
            if !is_interrupted(&read) {
                self.restore_timeouts();
                return read;
            }
        }
        Err(io::Error::from(ErrorKind::Interrupted))
    }

    /// The session leaves: this is the end of what it reads.
    fn park(&self) -> io::Result<usize>
        ensures { result ≡ Ok 0 }
    {
        self.is_parked.set(true);
        Ok(0)
    }

    /// It waits from now on, if it did not before.
    fn begin_wait(&self) -> io::Result<()> {
        if self.since.get().is_none() {
            self.since.set(self.now()?);
        }
        Ok(())
    }

    /// Whether what was done is to be tried again: it was interrupted, or has ended by the time after which the session leaves its thread, or
    /// its thread does not run.
    fn is_to_wait(&self, done: &io::Result<usize>) -> bool {
        if self.may_park {
            comes_later(done)
        } else {
            is_interrupted(done)
        }
    }

    /// Writes bytes, once some can be taken.
    pub fn write(&self, thread: &RunningThread<'_, C>, buf: &[u8]) -> io::Result<usize>
        ensures { WritesAtMost result buf.now }
    {
        let written = self.write_some(thread, buf);
        self.since.set(None);
        self.note(&written);
        if let Ok(0) = written {
            self.failed.set(Some(SocketFailure::Broken));
        }
        written
    }

    fn write_some(&self, thread: &RunningThread<'_, C>, buf: &[u8]) -> io::Result<usize>
        ensures { WritesAtMost result buf.now }
    {
        let mut stream = self.stream;
        if !self.waits.get() {
            let written = stream.write(buf);
            if !comes_later(&written) {
                return written;
            }
            self.put_waits(true)?;
        }
        let start = self.now()?;
        let written = stream.write(buf);
        if !self.is_to_wait(&written) {
            return written;
        }
        thread.block();
        for _ in 0..u64::MAX {
            self.put_rest(start)?;
            let written = stream.write(buf);
            if !is_interrupted(&written) {
                self.restore_timeouts();
                return written;
            }
        }
        Err(io::Error::from(ErrorKind::Interrupted))
    }

    /// When a wait begins, if it has an end.
    fn now(&self) -> io::Result<Option<Instant>> {
        match self.idle {
            Some(_) => Ok(Some(Instant::now(self.clock)?)),
            None => Ok(None),
        }
    }

    /// From now on a read or a write waits for what is left of the idle time of a wait that began then. Where nothing is left it does
    /// not wait, but takes what came in the meantime.
    fn put_rest(&self, start: Option<Instant>) -> io::Result<()> {
        let (Some(idle), Some(start)) = (self.idle, start) else {
            return self.put_no_end();
        };
        let rest = idle.saturating_sub(start.elapsed(self.clock)?);
        if rest.is_zero() {
            return self.put_waits(false);
        }
        set_timeouts(self.stream, Some(rest))
    }

    /// From now on a read or a write waits without an end.
    fn put_no_end(&self) -> io::Result<()> {
        if self.may_park {
            set_timeouts(self.stream, None)
        } else {
            Ok(())
        }
    }

    /// From now on a read or a write waits as it did at first.
    fn restore_timeouts(&self) {
        // Where this fails, the next wait is as short as the rest of this one.
        let _ = set_first_timeouts(self.stream, self.idle, self.may_park);
    }
}

/// Makes the stream of a new connection ready for its sessions. A read or a write that waits longer than the idle time fails, if there is
/// one. Where sessions may leave their threads to others, a read ends sooner, and is tried again.
pub fn make_ready(stream: &TcpStream, idle: Option<Duration>, may_park: bool) {
    // Without this an answer may be held back; where it fails it still comes.
    let _ = stream.set_nodelay(true);
    // Where this fails, a wait has no end; an open socket takes it.
    let _ = set_first_timeouts(stream, idle, may_park);
}

/// From now on a read or a write waits as in a new session.
fn set_first_timeouts(
    stream: &TcpStream,
    idle: Option<Duration>,
    may_park: bool,
) -> io::Result<()> {
    if !may_park {
        return set_timeouts(stream, idle);
    }
    stream.set_read_timeout(Some(Duration::from_millis(SILENCE_MILLISECONDS)))?;
    stream.set_write_timeout(Some(Duration::from_millis(WRITE_MILLISECONDS)))
}

/// Whether a read would not wait.
pub fn is_readable(stream: &TcpStream) -> bool {
    let mut asked = [pollfd {
        fd: stream.as_raw_fd(),
        events: POLLIN,
        revents: 0,
    }];
    poll(&mut asked, 0) > 0
}

/// How one failed of this kind.
fn failure_of(kind: ErrorKind) -> SocketFailure {
    match kind {
        ErrorKind::WouldBlock | ErrorKind::TimedOut => SocketFailure::Idle,
        ErrorKind::InvalidData => SocketFailure::Http,
        _ => SocketFailure::Broken,
    }
}

/// From now on a read or a write waits for so long, or without an end.
fn set_timeouts(stream: &TcpStream, timeout: Option<Duration>) -> io::Result<()> {
    stream.set_read_timeout(timeout)?;
    stream.set_write_timeout(timeout)
}

fn is_interrupted(done: &io::Result<usize>) -> bool {
    matches!(done, Err(error) if error.kind() == ErrorKind::Interrupted)
}

/// Whether a read or a write that does not wait has nothing to tell yet.
fn comes_later(done: &io::Result<usize>) -> bool {
    is_interrupted(done) || matches!(done, Err(error) if error.kind() == ErrorKind::WouldBlock)
}
