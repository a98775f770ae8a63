//! What a server has beside its clients: the base that it begins with, who is told what goes on, and who ends it.

ghost use Rattle.std.specs.Prelude.{◌≡◌, ◌++◌, ◌∷◌, [], Bool, List, IfNone, IfOk, IfSome, true};
ghost use Rattle.mlt_serve.specs.declared.operating.Piece.{Piece as GivenPiece};

use mlt_object_base::Base;
use mlt_serve_admin::{Build, ProcessFiles};
use mlt_types::Refusal;
use std::alloc::Global;
use std::hash::RandomState;
use std::io;
use std::io::{ErrorKind, Write};
use std::net::TcpListener;
use std::sync::Mutex;

/// A file that a trace is written into as it goes.
pub trait TraceFile: Write {
    /// Takes so many bytes off its end.
    ///
    /// # Errors
    /// The system's, and then it is as it was.
    fn take_back(&mut self, count: u64) -> io::Result<()>;
}

/// A file that a base is saved in.
pub trait BaseFile {
    /// Saves this base, to which so many commits led: it is on the disk then.
    ///
    /// # Errors
    /// The system's, and then the file is as before.
    fn save(&mut self, base: &Base, commits: u64) -> io::Result<()>;
}

/// No file for a base.
#[derive(Clone, Copy, Drop)]
pub struct NoBaseFile;

impl BaseFile for NoBaseFile {
    fn save(&mut self, _base: &Base, _commits: u64) -> io::Result<()> {
        Err(ErrorKind::NotFound.into())
    }
}

/// Tells when a server is to end.
pub trait EndSignal {
    /// Whether it is to end. It is asked again and again, and does not wait.
    fn is_given(&mut self) -> bool;
}

/// Tells nothing: a server ends by itself, or by its operator.
#[derive(Clone, Copy, Drop)]
pub struct NoSignal;

impl EndSignal for NoSignal {
    fn is_given(&mut self) -> bool {
        false
    }
}

/// A piece of a base to begin with, which one session makes.
#[derive(Drop)]
pub struct Piece {
    /// The lines of the session, 16,777,216 bytes at most.
    pub lines: Vec<u8>,
    /// What it is to answer them.
    pub answers: Vec<u8>,
}

/// Why a server does not load its base.
#[derive(Clone, Copy)]
pub enum LoadFailure<'a> {
    /// It is to end.
    Stopped,
    /// To this piece, the last one, other answers came: the second are the first of them.
    Answered(&'a Piece, &'a [u8]),
    /// There are more pieces than connections have numbers, 4,294,967,295.
    Long,
}

/// Gives the base that a server begins with, piece by piece.
pub trait BaseSource {
    // the pieces that it has given
    ghost given: { Self → List GivenPiece };

    // whether it has said that no more follow
    ghost is_over: { Self → Bool };

    /// The next piece, if one follows.
    ///
    /// # Errors
    /// Why the base can't be read on. The server ends then.
    fn next(&mut self, alloc: Global) -> Result<Option<Piece>, Refusal>
        ensures more { IfOk result (λ next. IfSome next
            (λ piece. given self.new ≡ given self.old ++ piece ∷ [])) }
        ensures none { IfOk result (λ next. IfNone next (given self.new ≡ given self.old)) }
        ensures over { IfOk result (λ next. IfNone next (is_over self.new ≡ true)) };

    /// Hears why the base is not loaded, where that is not for an error of `next`. It is asked for no more.
    fn fail(&mut self, failure: LoadFailure<'_>);
}

/// The empty base.
#[derive(Clone, Copy, Drop)]
pub struct NoBase;

impl BaseSource for NoBase {
    ghost given = { λ _. [] };

    ghost is_over = { λ _. true };

    fn next(&mut self, _alloc: Global) -> Result<Option<Piece>, Refusal> {
        Ok(None)
    }

    fn fail(&mut self, _failure: LoadFailure<'_>) {}
}

/// What a server has beside its clients.
#[derive(Drop)]
pub struct Operating<'a, N, T, S, F> {
    /// Where its notes are written.
    pub notes: N,
    /// What is written there before them.
    pub unsaid: String,
    /// Where the trace is written as it goes, if it is.
    pub trace: Option<T>,
    /// Tells when it is to end.
    pub signal: S,
    /// Where an operator connects, if one may.
    pub admin: Option<Admin<'a>>,
    /// Where the base is saved when an operator says so, if it may be.
    pub save: Option<&'a Mutex<F>>,
}

/// Where an operator connects.
#[derive(Clone, Copy, Drop)]
pub struct Admin<'a> {
    pub listener: &'a TcpListener,
    /// The seed of the maps of header fields.
    pub keys: RandomState,
    /// The number of the server.
    pub number: u64,
    /// Of what build the program is.
    pub build: Build,
    /// Where the system tells of its process.
    pub process: &'a ProcessFiles,
}
