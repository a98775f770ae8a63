//! What a server is at one moment.

use crate::json::{all_done, number, text_or_null};
use crate::process::{Build, ProcessFigures};
use mlt_object_kinds::{Done, ObjOp};
use mlt_serve_connections::Totals;
use mlt_types::TxId;
use serde::Serialize;
use std::io;
use std::net::SocketAddr;

/// What a server is at one moment.
#[derive(Drop)]
pub struct ServerView {
    /// The numbers of the whole server.
    pub counts: Counts,
    /// The sessions that are served, in any order.
    pub sessions: Vec<SessionView>,
    /// Who waits for whom, in any order.
    pub waits: Vec<WaitView>,
}

/// Which objects are to be listed.
#[derive(Clone, Copy)]
pub struct WantedObjects {
    /// The place from which they are listed: the first 32 bits of pseudokeys.
    pub from: u32,
    /// The number of the first key.
    pub first: u64,
    /// The number of the last key.
    pub last: u64,
    /// From how many on no more are looked for.
    pub enough: usize,
}

/// Objects that are listed.
#[derive(Drop)]
pub struct ObjectsView {
    /// These.
    pub objects: Vec<ObjectView>,
    /// The place from which the next ones are listed, if there may be more.
    pub next: Option<u32>,
}

/// The record of an object.
#[derive(Clone, Copy)]
pub struct ObjectView {
    /// The number of its key.
    pub key: u64,
    /// The balance of an account, or the value of a counter. That of an element says nothing.
    pub value: u64,
}

/// The numbers of a whole server. What is counted is counted since the server began.
#[derive(Clone, Copy)]
pub struct Counts {
    /// A number that was drawn at random when the server began.
    pub server: u64,
    /// Of what build the program is.
    pub build: Build,
    /// Where clients connect, if the system could say so.
    pub address: Option<SocketAddr>,
    /// For how many seconds the server has listened.
    pub seconds: u64,
    /// How many connections are served, or, where they may be parked, how many are there.
    pub sessions: u64,
    /// How many threads serve sessions.
    pub session_threads: u64,
    /// How many connections wait for a session thread.
    pub queued: u64,
    /// How many connections are parked.
    pub parked: u64,
    /// How many connections were accepted.
    pub connections: u64,
    /// How many clients were refused, which are not among these, since all sessions were taken.
    pub refused: u64,
    /// How many connections are accepted in all.
    pub limit: u64,
    /// What sessions have counted.
    pub totals: Totals,
    /// How many transactions may begin in all.
    pub most_begun: u64,
    /// How many events the manager had.
    pub events: u64,
    /// How many items the history has.
    pub items: u64,
    /// How many bytes the items of the history and the outcomes take.
    pub bytes: u64,
    /// How many pages there are.
    pub pages: u64,
    /// How many pages there can be.
    pub most_pages: u64,
    /// The depth of the directory.
    pub depth: u64,
    /// How many objects there can be, if their pseudokeys spread evenly.
    pub room: u64,
    /// Whether there is a trace.
    pub has_trace: bool,
    /// Whether the trace could not be written.
    pub trace_failed: bool,
    /// Whether the server has a file to save its base in.
    pub can_save: bool,
    /// Whether the server still loads its base.
    pub is_loading: bool,
    /// Whether the server was told to end.
    pub is_stopping: bool,
    /// What the system says of its process.
    pub process: ProcessFigures,
}

/// Why a base was not saved.
#[derive(Clone, Copy, Drop)]
pub enum NotSaved {
    /// The server has no file for it.
    NoFile,
    /// It is not loaded yet.
    Loading,
    /// It is being saved already.
    Busy,
    /// It can't be made or written. The file is as before.
    Failed(io::Error),
}

/// A session that is served.
#[derive(Drop, Serialize)]
pub struct SessionView {
    /// The number of its client.
    pub client: u32,
    /// The address of its client, if the system could say so.
    #[serde(serialize_with = "text_or_null")]
    pub address: Option<SocketAddr>,
    /// For how many thousandths of a second it has been served.
    pub milliseconds: u64,
    /// Its transaction, where one is open.
    pub transaction: Option<TransactionView>,
}

/// A transaction that is open.
#[derive(Drop, Serialize)]
pub struct TransactionView {
    /// Its number.
    #[serde(serialize_with = "number")]
    pub number: TxId,
    /// For how many thousandths of a second it has been open.
    pub milliseconds: u64,
    /// How many operations it has done.
    pub operations: u64,
    /// The last of these, the oldest first; some 16.
    #[serde(serialize_with = "all_done")]
    pub did: Vec<Done>,
    /// The operation that it has called and that is not done, if there is one.
    #[serde(serialize_with = "text_or_null")]
    pub calls: Option<ObjOp>,
}

/// A transaction that waits for another one.
#[derive(Clone, Copy, Serialize)]
pub struct WaitView {
    /// The transaction that waits.
    #[serde(serialize_with = "number")]
    pub waiter: TxId,
    /// The number of the client whose transaction waits.
    pub client: u32,
    /// The transaction that it waits for.
    #[serde(serialize_with = "number")]
    pub holder: TxId,
    /// What it waits for.
    #[serde(rename = "for")]
    pub awaited: WaitReason,
    /// The operation that it has called, if there is one.
    #[serde(serialize_with = "text_or_null")]
    pub operation: Option<ObjOp>,
    /// For how many thousandths of a second it has waited.
    pub milliseconds: u64,
}

/// What a transaction waits for.
#[derive(Clone, Copy, Serialize)]
#[serde(rename_all = "lowercase")]
pub enum WaitReason {
    /// An operation of the other one conflicts with its own: the end of the other transaction.
    Object,
    /// The other one's operation has a page: the end of that operation.
    Page,
    /// The other one is to call its operation first.
    Turn,
}
