//! All constants of the rooms `work` and `serve` that can be tuned, and the limits of a server that its operator sees. Each says the row of
//! `bench/run` that shows its worth, by the group and the workload, or where a limit is documented.

// The lock over the manager, of `mlt_work_desk`.

/// How many times a thread looks again at the lock while another thread has it, before it sleeps. By `connections`, 64 connections of 4
/// threads.
pub const LOCK_SPINS: u32 = 16;

/// How many pauses of the processor come before each look: 1 to 3 microseconds, in which the thread that has the lock takes it for its
/// next events. By `serve`, 8 connections, a transaction a write; and by `connections`, 64 connections of 4 threads.
pub const PAUSES_PER_LOCK_SPIN: u32 = 64;

// The turns of the workers of `run`, of `mlt_work`.

/// How many workers are at work at a time. With two they wait for each other at the lock over the manager. By `workers`, 2 workers.
pub const MOST_ADMITTED_WORKERS: u64 = 1;

/// How many workers bypass the queue at a time: none, so that each has its turn. By `workers`, 2 workers.
pub const MOST_BYPASSING_WORKERS: u64 = 0;

/// After how many answers the first turn of a worker is over. Turns are short at first, so that short runs are interleaved too. By
/// `workers`, 8 workers.
pub const FIRST_TURN: u32 = 32;

/// After how many answers the longest turn of a worker is over. By `workers`, 4 and 8 workers.
pub const LONGEST_TURN: u32 = 2_048;

/// For how many milliseconds the first turn waits at most for workers that are still to come. Nothing measures it.
pub const START_MILLISECONDS: u64 = 100;

// The turns of sessions, of `mlt_serve_connections`.

/// How many sessions that queue are admitted at a time. By `connections`, 64 connections of 4 threads, a transaction a write.
pub const MOST_ADMITTED_SESSIONS: u64 = 3;

/// How many sessions bypass the queue at a time. By `connections`, 64 connections of 4 threads.
pub const MOST_BYPASSING_SESSIONS: u64 = 1;

/// After how many answers a session queues: some 64 events. By `clients`, a client, a line a round trip, beside 4 that stream.
pub const ANSWERS_PER_TURN: u32 = 16;

// The pause of a session or a worker after `GaveUp`.

/// For how many microseconds it pauses before a restarted transaction, times those that pause. By `retries`, 63 clients that try again at
/// once.
pub const RESTART_MICROSECONDS: u64 = 6_400;

// The reads and writes of a session, of `mlt_serve_connections`.

/// How many times a read looks for bytes before it sleeps, for some ten microseconds. By `connections`, 1 connection and 2 connections.
pub const READ_SPINS: u32 = 50;

/// For how many milliseconds a thread counts as one that runs while it writes to a client that takes nothing. Nothing measures it.
pub const WRITE_MILLISECONDS: u64 = 1;

/// For how many seconds in all what a client still sends after its end is read away: no longer than any idle time. A limit, in PROTOCOL.
pub const LINGER_SECONDS: u64 = 1;

// Clients and session threads, of `mlt_serve_connections` and `mlt_serve`.

/// After how many milliseconds in which its client sends nothing, with no transaction open, a session leaves its thread. A limit, in
/// OPERATING's "Clients, sessions and transactions".
pub const SILENCE_MILLISECONDS: u64 = 20;

/// How many session threads run at a time while they are short. By `clients`, 200 clients, a transaction a write, 10 ms between
/// transactions.
pub const MOST_RUNNING: u64 = 2;

/// Of how many connections that are taken in a row, while threads are short, it is counted how many clients they are of. Threads are short
/// no more if these are no more than there are threads. By `clients`, 64 clients beside 10,000 idle ones.
pub const TAKES_PER_ROUND: u64 = 1_024;

/// How many parked connections are reported at a time. Nothing measures it.
pub const EVENTS_PER_POLL: usize = 256;

// Accepts of connections, of `mlt_serve_connections`, `mlt_serve` and `mlt_serve_admin`.

/// How many connections may wait for an accept: no more than `net.core.somaxconn` of the system. By `clients`, 5,000 clients come at once.
pub const BACKLOG: i32 = 4_096;

/// How many milliseconds an accept pauses that failed for want of descriptors or buffers, or failed twice in a row; and for how many an
/// accept of an operator's connection waits. Nothing measures it.
pub const ACCEPT_PAUSE_MILLISECONDS: u64 = 100;

/// For how many milliseconds new clients wait where as many are connected as may be, until that is looked at again. Nothing measures it.
pub const ROOM_PAUSE_MILLISECONDS: u64 = 10;

// The supervision of a server and its end, of `mlt_serve`, `mlt_serve_connections` and `mltx`.

/// How many milliseconds pass between two looks of the supervisor after sessions, and of the lobby after parked connections, and at most
/// between two pieces of a trace. By `looked`, 8 connections of 4 threads and 64 connections of 4 threads.
pub const SUPERVISION_MILLISECONDS: u64 = 250;

/// In how many looks of the supervisor session threads may still begin, some 3 seconds: a busy machine starts them late. A limit, in
/// OPERATING's "Messages".
pub const LOOKS_FOR_THREADS: u32 = 12;

/// For how many looks of the supervisor clients wait for a session thread until that is told, a second. A limit, in OPERATING's
/// "Messages".
pub const LOOKS_FOR_QUEUE: u32 = 4;

/// For how many milliseconds the end of standard input is waited for, again and again. Nothing measures it.
pub const INPUT_MILLISECONDS: i32 = 1_000;

/// How many seconds sessions have to end by themselves once the server is to stop. Then they are cut. A limit, in OPERATING's "Stop".
pub const STOP_SECONDS: u64 = 3;

/// For how many seconds a session that was cut may still write to a client that does not read, and the end of a server waits until its
/// messages are written. A limit, in OPERATING's "Stop".
pub const LAST_WRITES_SECONDS: u64 = 5;

// The trace of a server, of `mlt_serve`.

/// How many items of a history are copied in one hold of the lock, in a microsecond or two. By `looked`, 8 connections of 4 threads and 64
/// connections of 4 threads.
pub const ITEMS_PER_HOLD: usize = 256;

/// How many items are many to be taken out of the manager at once, 262,144 bytes: where more are, they are taken sooner. By `endless`, a
/// million transactions.
pub const MANY_ITEMS: usize = 8_192;

/// How many milliseconds pass at least between two pieces that are taken out of the manager. By `endless`, a million transactions.
pub const LEAST_PAUSE_MILLISECONDS: u64 = 10;

/// How many items may wait for a trace that is written slowly, 16,777,216 bytes: where more do, no transaction begins. A limit, in
/// OPERATING's "Memory".
pub const MOST_WAITING_ITEMS: u64 = 524_288;

/// For how many seconds a block of the trace is written until that is told, and until it is given up once the server ends. A limit, in
/// OPERATING's "Trace" and "Messages".
pub const LATE_SECONDS: u64 = 5;

// What is listed for an operator, by `mlt_serve` and `mlt_serve_admin`.

/// How many buckets are copied for a list of objects in one hold of the lock, in some microseconds. By `looked`, 100,000 counters are
/// listed again and again.
pub const BUCKETS_PER_HOLD: usize = 16;

/// How many microseconds pass at least between two such holds. By `looked`, 100,000 counters are listed again and again.
pub const LIST_PAUSE_MICROSECONDS: u64 = 250;

/// How many such holds there are for one answer, which so takes some 20 milliseconds at most: others wait for the same thread. Nothing
/// measures it.
pub const HOLDS_PER_LIST: u32 = 64;

/// From how many objects on a list of them ends. A limit, in OPERATING's "HTTP".
pub const ENOUGH_OBJECTS: usize = 1_000;

/// How many clients are listed at most. A limit, in OPERATING's "HTTP".
pub const MOST_CLIENTS_LISTED: usize = 1_000;

// The connections of operators, of `mlt_serve_admin`.

/// How many connections a thread has at once, of which there are two. A limit, in OPERATING's "HTTP".
pub const MOST_VISITS: usize = 32;

/// For how many milliseconds the first read of a connection waits. Nothing measures it.
pub const FIRST_READ_MILLISECONDS: u64 = 5;

/// After how many seconds a connection is closed whose request has not come whole. A limit, in OPERATING's "HTTP".
pub const LONGEST_REQUEST_SECONDS: u64 = 1;

/// After how many seconds a connection is closed in any case. A limit, in OPERATING's "HTTP".
pub const LONGEST_VISIT_SECONDS: u64 = 5;

/// The longest body of a request, in bytes. No request wants one. Nothing measures it.
pub const LONGEST_BODY: usize = 1_024;

/// How many bytes of memory are kept for a request that comes where no more can be had, as one that stops the server. Nothing measures it.
pub const REQUEST_RESERVE: usize = 65_536;

// The messages of a server, of `mlt_serve_connections`.

/// How many messages may be on their way to the thread that writes them. A limit, in OPERATING's "Messages".
pub const MOST_NOTES_WAITING: usize = 128;

/// How many messages of one kind are written in a second. The others are lost. A limit, in OPERATING's "Messages".
pub const MOST_NOTES_IN_A_SECOND: u64 = 50;

/// For how many seconds a message is waited for before it is told how many were lost. Nothing measures it.
pub const LOST_NOTES_SECONDS: u64 = 1;
