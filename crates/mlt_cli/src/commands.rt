//! What `clap` reads the words of the command line by: the subcommands, their arguments and their help.

use clap::builder::ValueParser;
use clap::{Arg, ArgAction, Command};
use std::alloc::{AllocError, Global};

/// The version of the program.
pub const VERSION: &str = "0.2.0";

const NO_WORDS: &str =
    "Without arguments, `mltx` reads scripts from standard input, like `mltx solo -`.

A prompt for a server comes with the Python client: `mltx-shell 127.0.0.1:7000`, or `./mltx shell
127.0.0.1:7000` in the source tree.

Example: mltx solo scripts.txt";

const SOLO_EXAMPLE: &str = "Example: mltx solo scripts.txt

  scripts.txt        standard output
  begin
  open 101           opened
  deposit 101 500    done
  balance 101        is 500
  commit             committed 1";

const STEPS_EXAMPLE: &str = "Example: mltx steps schedule.txt

  schedule.txt               standard output
  begin                      begun 1
  whole 1 open 101           done opened
  whole 1 deposit 101 50     done done
  commit 1                   committed 1
  begin                      begun 2
  begin                      begun 3
  whole 2 withdraw 101 30    done done
  whole 3 withdraw 101 40    blocked by 2
  abort 2                    aborting
  undo 2                     aborted
  whole 3 withdraw 101 40    done done
  commit 3                   committed 2
                             account 101 10
                             depth 0

Transaction 3 asks for 40 coins, and is blocked while transaction 2, which has taken 30 of 50,
may still abort: the reply is `short` if it commits, and `done` if it aborts. With `--explain`
the program prints this reason too.";

const RUN_EXAMPLE: &str = "Example: mltx run scripts.txt --workers 2 --trace trace.txt

  scripts.txt      standard output
  begin 4          client 4 script 1
  up 301 20        done
  commit           committed 1
  begin 7          client 7 script 1
  up 301 30        done
  commit           committed 2
                   counter 301 50

Scripts of one client run in the order of the file. The numbers of the commits, and which script
waits for which, may differ from run to run; the committed state of scripts like these does not.
`mltx check trace.txt` runs the committed scripts again, one after another in the order of their
commits, and compares every reply.";

const CHECK_EXAMPLE: &str = "Example: mltx check trace.txt

  trace.txt                  standard output
  begin 3
  begin 4
  op 4 open 101 opened
  op 4 deposit 101 70 done
  commit 4 1                 serial 4
  op 3 balance 101 is 70
  commit 3 2                 serial 3
                             account 101 70

If the reply in line 4 were `over`, the program would print `mltx: 11 TraceFault line 4 Reply`
to standard error.";

const SERVE_EXAMPLE: &str = "Example: mltx serve 127.0.0.1:7000 --limit 2
         nc 127.0.0.1 7000

  line               answer
  begin              begun 1
  open 101           opened
  deposit 101 500    done
  balance 101        is 500
  commit             committed 1
  quit               bye

Once clients can connect, the server prints `mltx: listening on 127.0.0.1:7000` to standard
error. For port 0 this line has the port that the system chose.

If a connection ends, its open transaction is rolled back. The trace is written continuously.
When the server exits, it prints `served` and the number of connections.

To keep a server running until you stop it, and its data, also after a crash:
  mltx serve 127.0.0.1:7000 --endless --idle 600 --data data --admin 127.0.0.1:7001

Stop it by the button at http://127.0.0.1:7001, or by
  curl -X POST -H 'X-Mltx: 1' http://127.0.0.1:7001/stop
SIGTERM, SIGHUP and Ctrl-C stop it too where they are blocked, as `./mltx` and an installed `mltx`
start it; else they end it at once, and save nothing. A second Ctrl-C ends it at once.";

const TABLES_EXAMPLE: &str = "Example: mltx tables counter

  counter    Counted Read
  Counted          .    x
  Read             x    .

  Counted, then Read, from counter 301 0:
    held up 301 1 done, asked read 301 is 1: counter 301 1
    asked read 301 is 0, held up 301 1 done: counter 301 1
  Read, then Counted, from counter 301 0:
    held read 301 is 0, asked up 301 1 done: counter 301 1
    asked up 301 1 done, held read 301 is 1: counter 301 1

Rows are operations that a transaction holds, and columns are operations that another one requests.
An `x` marks a conflict: some two such operations get other replies, or lead to another state, if
they are executed in the other order.";

// A subcommand: its name, what help says of it, and the rows of what it takes.
struct Subcommand {
    name: &'static str,
    about: &'static str,
    example: &'static str,
    rows: &'static [Row],
}

// What a subcommand takes, with what help says of it. An option has its long name, and that of its value.
#[derive(Clone, Copy)]
enum Row {
    // FILE or ADDR.
    Input(&'static str, &'static str),
    // The name of a conflict table.
    Table(&'static str),
    // An option that takes nothing.
    Flag(&'static str, &'static str),
    // An option that takes a text.
    Text(&'static str, &'static str, &'static str),
    // An option that takes one of these names, and has the last one where it is not given.
    Choice(&'static str, &'static str, &'static str, &'static [&'static str], &'static str),
    // An option that takes a number within these bounds, and has the last one where it is not given.
    Number(&'static str, &'static str, &'static str, u64, u64, &'static str),
    // The options behind it stand below this heading.
    Heading(&'static str),
}

const HASH_NAMES: &[&str] = &["mult", "low"];

const TABLE_NAMES: &[&str] = &["account", "set", "counter"];

const FULL_NAMES: &[&str] = &["wait", "refuse"];

const FILE: Row = Row::Input("FILE", "File to read; `-` is standard input");

const HASH: Row = Row::Choice(
    "hash",
    "HASH",
    "Hash function of the pages",
    HASH_NAMES,
    "mult",
);

const TRACE: Row = Row::Text("trace", "FILE", "Write a trace of the transactions to FILE");

const ECHO: Row = Row::Flag("echo", "Print each line of FILE, and its answer beside it");

const LOAD: Row = Row::Text(
    "load",
    "FILE",
    "Begin with the accounts, elements and counters of FILE, as `run` prints them, or of a trace",
);

const TRIES: Row = Row::Number(
    "tries",
    "N",
    "Answer GaveUp after N waits for other transactions, 1 to 1000000",
    1,
    1_000_000,
    "10000",
);

const SOLO_ROWS: &[Row] = &[FILE, HASH, TRACE, ECHO, LOAD];

const STEPS_ROWS: &[Row] = &[
    FILE,
    HASH,
    TRACE,
    ECHO,
    Row::Flag(
        "explain",
        "After each event that is blocked or waits, print the reason in lines that begin with `#`",
    ),
];

const RUN_ROWS: &[Row] = &[
    FILE,
    HASH,
    TRACE,
    ECHO,
    LOAD,
    Row::Number(
        "workers",
        "N",
        "Run the scripts in N threads that take turns, 1 to 8; more are not faster",
        1,
        8,
        "4",
    ),
    TRIES,
];

const CHECK_ROWS: &[Row] = &[
    FILE,
    Row::Flag(
        "long",
        "Check a trace of any length: read it piece by piece, and print while reading",
    ),
];

// `--limit`, `--clients` and `--open` have no default value: what is found then tells whether they stand beside `--endless`.
const SERVE_ROWS: &[Row] = &[
    Row::Input(
        "ADDR",
        "IP address and port to listen on, such as `127.0.0.1:7000`",
    ),
    HASH,
    TRACE,
    LOAD,
    Row::Text(
        "save",
        "FILE",
        "When the server stops, save its accounts, elements and counters in FILE, for --load",
    ),
    Row::Text(
        "data",
        "FOLDER",
        "Keep them and the trace in FOLDER, and begin with what is there, also after a crash",
    ),
    Row::Heading("Connections"),
    Row::Flag(
        "endless",
        "Accept connections without limit, and keep no history in memory; not with --limit",
    ),
    Row::Number(
        "clients",
        "N",
        "Let up to N clients be connected with --endless, 1 to 100000 [default: 10000]",
        1,
        100_000,
        "",
    ),
    Row::Number(
        "limit",
        "N",
        "Exit after N connections, 1 to 1000000 [default: 1]",
        1,
        1_000_000,
        "",
    ),
    Row::Number(
        "sessions",
        "N",
        "Serve up to N connections at a time, 1 to 64 [default: 8], or with --endless transactions [default: 64]",
        1,
        64,
        "",
    ),
    Row::Choice(
        "full",
        "FULL",
        "Let new clients wait, or refuse them, while all sessions, or --clients, are taken",
        FULL_NAMES,
        "wait",
    ),
    Row::Heading("Waits and timeouts"),
    TRIES,
    Row::Number(
        "wait",
        "SECONDS",
        "Answer GaveUp to operations that wait for SECONDS, up to 86400; 0 = never",
        0,
        86_400,
        "0",
    ),
    Row::Number(
        "open",
        "SECONDS",
        "Close connections whose transaction is open for SECONDS, up to 86400; 0 = never [default: 0, or 60 with --endless]",
        0,
        86_400,
        "",
    ),
    Row::Number(
        "idle",
        "SECONDS",
        "Close connections idle for SECONDS, up to 86400; 0 = never",
        0,
        86_400,
        "0",
    ),
    Row::Heading("Operation"),
    Row::Text(
        "admin",
        "ADDR",
        "Serve the operator's page, JSON and metrics by HTTP at this IP address and port",
    ),
    Row::Flag(
        "until-eof",
        "Shut down when standard input ends; not with `&`, `nohup` or `< /dev/null`",
    ),
];

const TABLES_ROWS: &[Row] = &[Row::Table("Table to print; all of them if it is not given")];

const SUBCOMMANDS: &[Subcommand] = &[
    Subcommand {
        name: "solo",
        about: "Run the scripts of FILE one after another, and print the replies",
        example: SOLO_EXAMPLE,
        rows: SOLO_ROWS,
    },
    Subcommand {
        name: "steps",
        about: "Replay a schedule of interleaved transactions step by step; print each answer and the committed state",
        example: STEPS_EXAMPLE,
        rows: STEPS_ROWS,
    },
    Subcommand {
        name: "run",
        about: "Run the scripts of FILE side by side in threads; print the replies and the committed state",
        example: RUN_EXAMPLE,
        rows: RUN_ROWS,
    },
    Subcommand {
        name: "check",
        about: "Check a trace: run its committed transactions again, in commit order, and compare every reply",
        example: CHECK_EXAMPLE,
        rows: CHECK_ROWS,
    },
    Subcommand {
        name: "serve",
        about: "Listen on ADDR and serve clients, which send lines and get an answer to each",
        example: SERVE_EXAMPLE,
        rows: SERVE_ROWS,
    },
    Subcommand {
        name: "tables",
        about: "Print which operations conflict, with an example of each conflict",
        example: TABLES_EXAMPLE,
        rows: TABLES_ROWS,
    },
];

// The program's description.
pub(crate) fn mltx_command<'a>(alloc: Global) -> Result<Command<'a>, AllocError> {
    let mut command = Command::new(alloc, "mltx")
        .version(VERSION)
        .about("Run transactions on accounts, sets and counters, and check traces of them")
        .after_help(NO_WORDS)
        .no_binary_name(true)
        .subcommand_required(true)
        .bin_name("mltx")?
        .arg(verbose_flag(alloc))?;
    for subcommand in SUBCOMMANDS {
        command = with_subcommand(command, subcommand_of(alloc, subcommand))?;
    }
    Ok(command)
}

// The command with a subcommand, if there was memory for that.
fn with_subcommand<'a>(
    command: Command<'a>,
    subcommand: Result<Command<'a>, AllocError>,
) -> Result<Command<'a>, AllocError> {
    command.subcommand(subcommand?)
}

fn subcommand_of<'a>(alloc: Global, subcommand: &Subcommand) -> Result<Command<'a>, AllocError> {
    let mut command = Command::new(alloc, subcommand.name)
        .about(subcommand.about)
        .after_help(subcommand.example)
        .arg(verbose_flag(alloc))?;
    for row in subcommand.rows {
        command = with_row(alloc, command, *row)?;
    }
    Ok(command)
}

// The flag that asks for the second line of a fault.
fn verbose_flag<'a>(alloc: Global) -> Arg<'a> {
    flag(
        alloc,
        "verbose",
        "After an error, print a second line with the file or address, the reason and what was expected",
    )
    .short('v')
}

fn with_row<'a>(alloc: Global, command: Command<'a>, row: Row) -> Result<Command<'a>, AllocError> {
    let argument = match row {
        Row::Heading(heading) => return Ok(command.next_help_heading(heading)),
        Row::Input(value_name, help) => Arg::new(alloc, "input")
            .value_name(value_name)
            .help(help)
            .required(true),
        Row::Table(help) => Arg::new(alloc, "table")
            .value_name("TABLE")
            .help(help)
            .value_parser(TABLE_NAMES),
        Row::Flag(name, help) => flag(alloc, name, help),
        Row::Text(name, value_name, help) => option(alloc, name, value_name, help),
        Row::Choice(name, value_name, help, names, usual) => {
            with_usual(
                option(alloc, name, value_name, help).value_parser(names),
                usual,
            )
        }
        Row::Number(name, value_name, help, least, most, usual) => {
            // A negative number is told to be out of its bounds, and is not taken for an option.
            let number = option(alloc, name, value_name, help)
                .value_parser(ValueParser::unsigned(least, most))
                .allow_negative_numbers(true);
            with_usual(number, usual)
        }
    };
    command.arg(argument)
}

// The option with the value that it has where it is not given; none, if this is no text.
fn with_usual<'a>(argument: Arg<'a>, usual: &'a str) -> Arg<'a> {
    if usual.is_empty() {
        argument
    } else {
        argument.default_value(usual)
    }
}

fn flag<'a>(alloc: Global, name: &'a str, help: &'a str) -> Arg<'a> {
    Arg::new(alloc, name)
        .long(name)
        .action(ArgAction::SetTrue)
        .help(help)
}

fn option<'a>(alloc: Global, name: &'a str, value_name: &'a str, help: &'a str) -> Arg<'a> {
    Arg::new(alloc, name)
        .long(name)
        .value_name(value_name)
        .help(help)
}
