//! The words of the command line, and the job that they ask for.

ghost use Rattle.std.specs.Prelude.{◌≤◌, IfOk};
ghost use Rattle.mlt_cli.specs.CommandLine.{AreWithinDay, IsWithinBounds, IsWithinLimit};

use crate::commands::mltx_command;
use clap::error::ErrorKind;
use clap::{ArgMatches, Command, Error};
use mlt_object_tables::TableName;
use std::alloc::{AllocError, Global};

/// A hash function of the pages, by its name.
#[derive(Clone, Copy)]
pub enum Hash {
    /// The number of a key, times a large odd number modulo 2^64.
    Mult,
    /// The low 16 bits of the number of a key, as the highest ones.
    Low,
}

/// What is to be run, and how.
#[derive(Drop)]
pub struct Run {
    /// The file to read, or the address to listen on, as it stands on the command line. The file `-` is standard input.
    pub input: String,
    /// The hash function of the pages, `Mult` where none is named.
    pub hash: Hash,
    /// The file for the trace as it stands on the command line, if there is one.
    pub trace: Option<String>,
    /// Whether answers are printed beside the input.
    pub echoes: bool,
    /// The file of the base to begin with as it stands on the command line, if there is one.
    pub load: Option<String>,
}

/// A schedule that is to be run.
#[derive(Drop)]
pub struct Schedule {
    /// What is to be run.
    pub run: Run,
    /// Whether the reason of each event that is blocked or waits is printed.
    pub explains: bool,
}

/// Scripts that are to be run side by side.
#[derive(Drop)]
pub struct Work {
    /// What is to be run.
    pub run: Run,
    /// How many workers there are, from 1 to 8; 4 where none is said.
    pub workers: usize,
    /// How often a script may be told to wait, from 1 to 1,000,000; 10,000 where none is said.
    pub tries: u64,
}

/// Connections that are to be served.
#[derive(Drop)]
pub struct Serve {
    /// The address, as its input.
    pub run: Run,
    /// How many sessions there are at once, from 1 to 64.
    pub sessions: usize,
    /// How many connections there are in all; one where nothing is said.
    pub connections: Connections,
    /// How often an operation may be told to wait, from 1 to 1,000,000; 10,000 where none is said.
    pub tries: u64,
    /// After how many seconds a silence, a wait and an open transaction are ended.
    pub times: Times,
    /// What a client finds while all sessions are taken, `Wait` where none is named.
    pub full: Full,
    /// How the server is run and ended.
    pub operating: OperatorOptions,
}

/// A trace that is checked.
#[derive(Drop)]
pub struct Check {
    /// The input's file as it stands on the command line. `-` is standard input.
    pub input: String,
    /// Whether the trace may have any length: then it is checked as it is read.
    pub is_long: bool,
}

/// How many connections a server takes in all.
#[derive(Clone, Copy)]
pub enum Connections {
    /// So many, from 1 to 1,000,000.
    Limit(u32),
    /// As many as come: neither what they were told nor what was done is kept. So many clients, from 1 to 100,000, may be connected at
    /// once; 10,000 where none is said.
    Endless(u64),
}

/// After how many seconds a server gives up, each from 0 to 86,400. 0 is never, also where none is said.
#[derive(Clone, Copy)]
pub struct Times {
    /// After how many seconds an idle connection is closed.
    pub idle: u64,
    /// After how many seconds an operation that waits gets `GaveUp`.
    pub wait: u64,
    /// After how many seconds the session of an open transaction is closed: 60, where connections are without end and none is said.
    pub transaction: u64,
}

/// What a client finds while all sessions are taken, or, where connections are without end, as many clients are connected as may be, by its
/// name.
#[derive(Clone, Copy, PartialEq, Eq)]
pub enum Full {
    /// It waits until there is room.
    Wait,
    /// It gets `TooManyOpen`, and its connection is closed.
    Refuse,
}

/// How an operator reaches a server and ends it.
#[derive(Drop)]
pub struct OperatorOptions {
    /// The address at which an operator connects by HTTP, as it stands on the command line, if there is one.
    pub admin: Option<String>,
    /// Whether the server ends in order at the end of standard input.
    pub until_eof: bool,
    /// The file for the base at the end as it stands on the command line, if there is one.
    pub save: Option<String>,
    /// The folder of all data as it stands on the command line, if there is one. There is then no file for the trace, nor for the base
    /// at the start or at the end.
    pub data: Option<String>,
}

/// What the program is asked to do.
#[derive(Drop)]
pub enum Job {
    /// To run the scripts of an input one after another.
    Solo(Run),
    /// To run the schedule of an input.
    Steps(Schedule),
    /// To run the scripts of an input side by side.
    Work(Work),
    /// To check the trace of an input.
    Check(Check),
    /// To serve connections.
    Serve(Serve),
    /// To write the conflict table of this name, or all of them.
    Tables(Option<TableName>),
}

/// What the words of the command line ask for.
#[derive(Drop)]
pub struct CommandLine {
    /// What is to be done.
    pub job: Job,
    /// Whether a fault is to have its second line.
    pub verbose: bool,
}

// Why what `clap` found gives no job.
enum NoJob {
    // Memory ran out.
    Memory(AllocError),
    // A word is missing, or is none that it may be. `clap` lets neither through.
    Word,
    // Connections are to be without end, and limited too.
    EndlessAndLimited,
    // So many clients are to be connected at once, of connections with an end.
    ClientsWithoutEndless,
    // There is to be a folder of all data, and one of its files elsewhere.
    DataElsewhere,
}

impl From<AllocError> for NoJob {
    fn from(refused: AllocError) -> NoJob {
        NoJob::Memory(refused)
    }
}

impl NoJob {
    // What is said of it.
    fn error(self, command: &mut Command<'_>) -> Result<Error, AllocError> {
        match self {
            NoJob::Memory(refused) => Err(refused),
            NoJob::Word => command.error(ErrorKind::MissingRequiredArgument, "no input was given"),
            NoJob::EndlessAndLimited => command.error(
                ErrorKind::ArgumentConflict,
                "the argument '--endless' cannot be used with '--limit <N>'",
            ),
            NoJob::ClientsWithoutEndless => command.error(
                ErrorKind::ArgumentConflict,
                "the argument '--clients <N>' cannot be used without '--endless'",
            ),
            NoJob::DataElsewhere => command.error(
                ErrorKind::ArgumentConflict,
                "the argument '--data <FOLDER>' cannot be used with '--load', '--save' or '--trace'",
            ),
        }
    }
}

/// The job that the words after the program's name ask for, and whether they have `-v` or `--verbose`. With no words it is
/// `solo -`.
///
/// # Errors
/// `clap`'s own, where the words ask for help or the version or are wrong, or memory runs out.
pub fn read_words(alloc: Global, words: &[String]) -> Result<CommandLine, Error>
    // each number is in its range
    ensures bounds { IfOk result (λ line. IsWithinBounds line.job) }
{
    if words.is_empty() {
        return Ok(CommandLine {
            job: standard_input(alloc)?,
            verbose: false,
        });
    }
    let mut command = mltx_command(alloc)?;
    let matches = command.try_get_matches_from_mut(words)?;
    match line_found(alloc, &matches) {
        Ok(line) => Ok(line),
        Err(found) => Err(found.error(&mut command)?),
    }
}

fn standard_input(alloc: Global) -> Result<Job, AllocError>
    ensures { IfOk result IsWithinBounds }
{
    Ok(Job::Solo(Run {
        input: String::from_str(alloc, "-")?,
        hash: Hash::Mult,
        trace: None,
        echoes: false,
        load: None,
    }))
}

// The flag `--verbose` stands before the subcommand or behind it.
fn line_found(alloc: Global, matches: &ArgMatches<'_>) -> Result<CommandLine, NoJob>
    ensures { IfOk result (λ line. IsWithinBounds line.job) }
{
    match matches.subcommand() {
        Some((name, found)) => Ok(CommandLine {
            job: job_found(alloc, name, found)?,
            verbose: matches.get_flag("verbose") || found.get_flag("verbose"),
        }),
        None => Err(NoJob::Word),
    }
}

fn job_found(alloc: Global, name: &str, found: &ArgMatches<'_>) -> Result<Job, NoJob>
    ensures { IfOk result IsWithinBounds }
{
    match name {
        "solo" => Ok(Job::Solo(run_found(alloc, found)?)),
        "steps" => Ok(Job::Steps(Schedule {
            run: run_found(alloc, found)?,
            explains: found.get_flag("explain"),
        })),
        "run" => work_found(alloc, found),
        "check" => Ok(Job::Check(Check {
            input: input_found(alloc, found)?,
            is_long: found.get_flag("long"),
        })),
        "serve" => serve_found(alloc, found),
        "tables" => Ok(Job::Tables(table_found(found)?)),
        _ => Err(NoJob::Word),
    }
}

fn run_found(alloc: Global, found: &ArgMatches<'_>) -> Result<Run, NoJob> {
    let hash = hash_found(found)?;
    Ok(Run {
        input: input_found(alloc, found)?,
        hash,
        trace: text_found(alloc, found, "trace")?,
        echoes: found.get_flag("echo"),
        load: text_found(alloc, found, "load")?,
    })
}

fn work_found(alloc: Global, found: &ArgMatches<'_>) -> Result<Job, NoJob>
    ensures { IfOk result IsWithinBounds }
{
    let workers = number_found(found, "workers", 1, 8)?;
    let tries = number_found(found, "tries", 1, 1_000_000)?;
    Ok(Job::Work(Work {
        run: run_found(alloc, found)?,
        workers: workers as usize,
        tries,
    }))
}

fn serve_found(alloc: Global, found: &ArgMatches<'_>) -> Result<Job, NoJob>
    ensures { IfOk result IsWithinBounds }
{
    let connections = connections_found(found)?;
    let sessions = number_or(found, "sessions", 1, 64, usual_sessions(&connections))?;
    let tries = number_found(found, "tries", 1, 1_000_000)?;
    let times = times_found(found, usual_open(&connections))?;
    let full = full_found(found)?;
    Ok(Job::Serve(Serve {
        run: run_found(alloc, found)?,
        sessions: sessions as usize,
        connections,
        tries,
        times,
        full,
        operating: operating_found(alloc, found)?,
    }))
}

// As many connections as the limit says, or as come; one where neither is asked for.
fn connections_found(found: &ArgMatches<'_>) -> Result<Connections, NoJob>
    ensures { IfOk result IsWithinLimit }
{
    let is_endless = found.get_flag("endless");
    if !is_endless && found.get_str("clients").is_some() {
        return Err(NoJob::ClientsWithoutEndless);
    }
    match (is_endless, found.get_str("limit")) {
        (true, Some(_)) => Err(NoJob::EndlessAndLimited),
        (true, None) => {
            let clients = number_or(found, "clients", 1, 100_000, 10_000)?;
            Ok(Connections::Endless(clients))
        }
        (false, Some(_)) => {
            let limit = number_found(found, "limit", 1, 1_000_000)?;
            Ok(Connections::Limit(limit as u32))
        }
        (false, None) => Ok(Connections::Limit(1)),
    }
}

// How many sessions there are at once where none is said.
fn usual_sessions(connections: &Connections) -> u64
    ensures { (1 ≤ result) × (result ≤ 64) }
{
    match connections {
        Connections::Endless(_) => 64,
        Connections::Limit(_) => 8,
    }
}

// After how many seconds the session of an open transaction is closed where none is said.
fn usual_open(connections: &Connections) -> u64
    ensures { result ≤ 86400 }
{
    match connections {
        Connections::Endless(_) => 60,
        Connections::Limit(_) => 0,
    }
}

fn times_found(found: &ArgMatches<'_>, usual_open: u64) -> Result<Times, NoJob>
    requires { usual_open ≤ 86400 }
    ensures { IfOk result AreWithinDay }
{
    Ok(Times {
        idle: number_found(found, "idle", 0, 86_400)?,
        wait: number_found(found, "wait", 0, 86_400)?,
        transaction: number_or(found, "open", 0, 86_400, usual_open)?,
    })
}

fn operating_found(alloc: Global, found: &ArgMatches<'_>) -> Result<OperatorOptions, NoJob> {
    let data = text_found(alloc, found, "data")?;
    let files = ["load", "save", "trace"];
    if data.is_some() && files.iter().any(|file| found.get_str(file).is_some()) {
        return Err(NoJob::DataElsewhere);
    }
    Ok(OperatorOptions {
        admin: text_found(alloc, found, "admin")?,
        until_eof: found.get_flag("until-eof"),
        save: text_found(alloc, found, "save")?,
        data,
    })
}

// FILE or ADDR.
fn input_found(alloc: Global, found: &ArgMatches<'_>) -> Result<String, NoJob> {
    match text_found(alloc, found, "input")? {
        Some(input) => Ok(input),
        None => Err(NoJob::Word),
    }
}

fn text_found(
    alloc: Global,
    found: &ArgMatches<'_>,
    id: &str,
) -> Result<Option<String>, AllocError> {
    match found.get_str(id) {
        Some(text) => Ok(Some(String::from_str(alloc, text)?)),
        None => Ok(None),
    }
}

// The number that an option gives, which lies within these bounds.
fn number_found(found: &ArgMatches<'_>, id: &str, least: u64, most: u64) -> Result<u64, NoJob>
    ensures { IfOk result (λ number. (least ≤ number) × (number ≤ most)) }
{
    match found.get_one::<u64>(id) {
        Some(number) if least <= number && number <= most => Ok(number),
        _ => Err(NoJob::Word),
    }
}

// The number that an option gives, which lies within these bounds, or the usual one where it is not given.
fn number_or(
    found: &ArgMatches<'_>,
    id: &str,
    least: u64,
    most: u64,
    usual: u64,
) -> Result<u64, NoJob>
    requires { (least ≤ usual) × (usual ≤ most) }
    ensures { IfOk result (λ number. (least ≤ number) × (number ≤ most)) }
{
    match found.get_str(id) {
        Some(_) => number_found(found, id, least, most),
        None => Ok(usual),
    }
}

fn hash_found(found: &ArgMatches<'_>) -> Result<Hash, NoJob> {
    match found.get_str("hash") {
        Some("mult") => Ok(Hash::Mult),
        Some("low") => Ok(Hash::Low),
        _ => Err(NoJob::Word),
    }
}

fn full_found(found: &ArgMatches<'_>) -> Result<Full, NoJob> {
    match found.get_str("full") {
        Some("wait") => Ok(Full::Wait),
        Some("refuse") => Ok(Full::Refuse),
        _ => Err(NoJob::Word),
    }
}

fn table_found(found: &ArgMatches<'_>) -> Result<Option<TableName>, NoJob> {
    match found.get_str("table") {
        Some("account") => Ok(Some(TableName::Account)),
        Some("set") => Ok(Some(TableName::Set)),
        Some("counter") => Ok(Some(TableName::Counter)),
        Some(_) => Err(NoJob::Word),
        None => Ok(None),
    }
}
