//! What a server has open as it begins.

use crate::failure::{Failure, Subject};
use crate::files::{move_away, open_locked};
use crate::output::Output;
use crate::streams::is_ready;
use libc::RLIMIT_NOFILE;
use libc::net::POLLOUT;
use libc::types::rlimit;
use mlt_cli::Serve;
use mlt_serve::TraceFile;
use mlt_text::write_text;
use mlt_types::Refusal;
use std::fs::File;
use std::hash::{BuildHasher, RandomState};
use std::net::{SocketAddr, TcpListener};
use std::os::fd::AsRawFd;
use std::{fs, io};

// How many bits of a random number are left out, so that those who read numbers as doubles read it exactly.
const UNUSED_BITS: u32 = 11;

// How many descriptors a server may need beside those that it has as it begins to listen, and those of its clients: for two pollers, for
// operators, and for files of a base that is saved.
const OWN_DESCRIPTORS: u64 = 12;

// What the second of two servers with one trace is told.
const TAKEN: &str = "another server writes its trace there";

// What an operator is told who would lose the base of a server by a signal.
const NOT_HELD: &str =
    "mltx: a signal ends this server at once, and saves nothing: `mltx serve --help` says how to start it\n";

/// What a server has open.
#[derive(Drop)]
pub(crate) struct Opened {
    /// Where clients connect.
    pub(crate) listener: TcpListener,
    /// Where an operator connects, if one may.
    pub(crate) admin: Option<TcpListener>,
    /// The file for the trace, if there is one.
    pub(crate) trace: Option<Output<File>>,
    /// The seed of the operator's maps.
    pub(crate) keys: RandomState,
    /// The number of the server, which is drawn at random.
    pub(crate) number: u64,
}

impl Opened {
    /// Opens what is asked for: first the address for clients, then that for an operator, then the file of this path for the trace.
    ///
    /// # Errors
    /// The first that can't be had.
    pub(crate) fn open(
        rt: &HostRuntime,
        serve: &Serve,
        trace: Option<&str>,
    ) -> Result<Opened, Failure> {
        let listener = bind(rt, serve.run.input.as_str(), Subject::Input)?;
        let admin = match &serve.operating.admin {
            Some(address) => Some(bind(rt, address.as_str(), Subject::Admin)?),
            None => None,
        };
        let trace = match trace {
            Some(file) => Some(Output::new(create_trace(rt, file).map_err(|error| Failure::of_call(
                Subject::Trace,
                error,
            ))?)),
            None => None,
        };
        let keys = RandomState::new(rt).map_err(|_| Refusal::Io)?;
        Ok(Opened {
            listener,
            admin,
            trace,
            keys,
            number: keys.hash_one(0_u64) >> UNUSED_BITS,
        })
    }

    /// That a connection of a client can be had beside those of an operator, if one may connect, and a second descriptor of a poll, if
    /// there is one. A thread has its descriptor as soon as it waits for a connection, and two wait for operators.
    ///
    /// # Errors
    /// Where a process may not have so many descriptors.
    pub(crate) fn spare_descriptors(&self, polls: bool) -> Result<(), Failure> {
        let client = self.listener.try_clone();
        let poll = polls.then(|| self.listener.try_clone());
        let first = self.admin.as_ref().map(|admin| admin.try_clone());
        let second = self.admin.as_ref().map(|admin| admin.try_clone());
        client
            .and(first.transpose())
            .and(second.transpose())
            .and(poll.transpose())
            .map(|_| ())
            .map_err(|error| Failure::of_call(Subject::Input, error))
    }

    /// How many clients can be connected, if the descriptors that a process may have leave room for fewer than so many: beside those that
    /// are taken, and some for operators, files and waits.
    pub(crate) fn few_clients(&self, clients: u64) -> Option<u64> {
        let mut limit = rlimit {
            rlim_cur: 0,
            rlim_max: 0,
        };
        if libc::getrlimit(RLIMIT_NOFILE, &mut limit) != 0 {
            return None;
        }
        // The system gives the lowest one that is free.
        let next = self.listener.try_clone().ok()?;
        let taken = u64::try_from(next.as_raw_fd()).unwrap_or(0);
        let room = limit.rlim_cur.saturating_sub(taken);
        let room = room.saturating_sub(OWN_DESCRIPTORS).max(1);
        (room < clients).then_some(room)
    }

    /// Tells on standard error this, where the server listens, for clients and for an operator, its number if that is asked for, and, if
    /// that is so, that a signal loses its base, and how many clients it has room for, if they are few. It returns what would have to wait for its reader. A server whose lines can't be written
    /// goes on.
    pub(crate) fn report(
        &self,
        rt: &HostRuntime,
        told: String,
        tells_number: bool,
        loses_base: bool,
        few_clients: Option<u64>,
    ) -> Result<String, Failure> {
        let mut lines = told;
        self.push_lines(&mut lines)?;
        if tells_number {
            write!(lines, "mltx: server {}\n", self.number)?;
        }
        if loses_base {
            lines.push_str(NOT_HELD)?;
        }
        if let Some(room) = few_clients {
            write!(
                lines,
                "mltx: the limit of descriptors leaves room for {room} clients\n"
            )?;
        }
        let mut stderr = rt.stderr();
        if !is_ready(&stderr, POLLOUT, 0) {
            return Ok(lines);
        }
        let _ = write_text(&mut stderr, lines.as_bytes());
        Ok(String::new(rt.alloc()))
    }

    // The lines that tell where the server listens, with the port that was had where port 0 was asked for.
    fn push_lines(&self, lines: &mut String) -> Result<(), Failure> {
        let address = address_of(&self.listener, Subject::Input)?;
        write!(lines, "mltx: listening on {address}\n")?;
        if let Some(admin) = &self.admin {
            let address = address_of(admin, Subject::Admin)?;
            write!(lines, "mltx: admin on {address}\n")?;
        }
        Ok(())
    }
}

fn bind(rt: &HostRuntime, address: &str, subject: Subject) -> Result<TcpListener, Failure> {
    TcpListener::bind(rt, address).map_err(|error| Failure::of_call(subject, error))
}

fn address_of(listener: &TcpListener, subject: Subject) -> Result<SocketAddr, Failure> {
    listener
        .local_addr()
        .map_err(|error| Failure::of_call(subject, error))
}

// The file for the trace, to which this server alone appends. A regular file that holds something keeps it under another name.
fn create_trace(rt: &HostRuntime, file: &str) -> io::Result<File> {
    let found = open_locked(rt, file, TAKEN)?;
    let metadata = found.metadata()?;
    if !metadata.is_file() || metadata.len() == 0 {
        return Ok(found);
    }
    // Where FILE is a symlink, as /dev/stdout is, the file that it leads to is moved. It stays locked meanwhile.
    let path = fs::canonicalize(rt, file)?;
    move_away(rt, path.as_str())?;
    open_locked(rt, path.as_str(), TAKEN)
}

impl TraceFile for Output<File> {
    fn take_back(&mut self, count: u64) -> io::Result<()> {
        self.cut(count)
    }
}
