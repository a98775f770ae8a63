//! The forms of lines, by their first words.

use std::alloc::{AllocError, Global};
use strsim::osa_distance;

/// Words, each with what is said of it.
pub(crate) type WordTable = &'static [(&'static str, &'static str)];

/// What a text is read as.
#[derive(Clone, Copy)]
pub(crate) enum TextKind {
    /// Scripts.
    Scripts,
    /// A schedule of events.
    Schedule,
    /// A trace.
    Trace,
    /// A base.
    Base,
}

impl TextKind {
    /// How lines of a text of this kind begin, each with the form of the whole line.
    pub(crate) fn forms(self) -> WordTable {
        match self {
            TextKind::Scripts => SCRIPT_FORMS,
            TextKind::Schedule => SCHEDULE_FORMS,
            TextKind::Trace => TRACE_FORMS,
            TextKind::Base => BASE_FORMS,
        }
    }

    /// The form of the lines that begin with this word, where a text of this kind has such.
    pub(crate) fn find_form(self, word: &[u8]) -> Option<&'static str> {
        find_row(self.forms(), word)
    }
}

// The first words of the lines of scripts, each with the form of the lines that begin so.
static SCRIPT_FORMS: WordTable = &[
    ("begin", "`begin`, or `begin K` with K from 0 to 999"),
    ("commit", "`commit`"),
    ("abort", "`abort`"),
    ("open", "`open A`, A below 2^32"),
    ("close", "`close A`, A below 2^32"),
    (
        "deposit",
        "`deposit A n`, A below 2^32, n below 2^64 or a variable",
    ),
    (
        "withdraw",
        "`withdraw A n`, A below 2^32, n below 2^64 or a variable",
    ),
    ("balance", "`balance A`, A below 2^32"),
    ("add", "`add S e`, S below 2^16, e below 2^32"),
    ("remove", "`remove S e`, S below 2^16, e below 2^32"),
    ("has", "`has S e`, S below 2^16, e below 2^32"),
    ("size", "`size S`, S below 2^16"),
    ("up", "`up C n`, C below 2^32, n below 2^64 or a variable"),
    (
        "down",
        "`down C n`, C below 2^32, n below 2^64 or a variable",
    ),
    ("read", "`read C`, C below 2^32"),
    (
        "need",
        "`need OP is REPLY`, such as `need withdraw 101 30 is done`",
    ),
    (
        "let",
        "`let v = balance A`, `let v = read C` or `let v = size S`",
    ),
    (
        "if",
        "`if OP is REPLY`, such as `if withdraw 101 30 is done`",
    ),
    ("else", "`else`"),
    ("end", "`end`"),
];

static SCHEDULE_FORMS: WordTable = &[
    ("begin", "`begin`"),
    ("call", "`call T OP`, such as `call 3 deposit 101 30`"),
    ("step", "`step T`, or `step T N` with N from 1 to 1000"),
    ("cancel", "`cancel T`"),
    ("commit", "`commit T`"),
    ("abort", "`abort T`"),
    ("whole", "`whole T OP`, such as `whole 3 deposit 101 30`"),
    ("undo", "`undo T`"),
];

static TRACE_FORMS: WordTable = &[
    ("begin", "`begin T`, T at least 1"),
    ("op", "`op T OP REPLY`, such as `op 3 balance 101 is 70`"),
    ("back", "`back T`, T at least 1"),
    ("commit", "`commit T N`, T and N at least 1"),
    ("abort", "`abort T`, T at least 1"),
];

static BASE_FORMS: WordTable = &[
    ("account", "`account A b`, A below 2^32, b at most 10^18"),
    ("element", "`element S e`, S below 2^16, e below 2^32"),
    (
        "counter",
        "`counter C v`, C below 2^32, v at least 1 and below 2^64",
    ),
];

/// The operations, each with the replies that it gets.
pub(crate) static OPERATIONS: WordTable = &[
    ("open", "`open` gets opened or exists"),
    ("close", "`close` gets closed, notempty or missing"),
    ("deposit", "`deposit` gets done, over or missing"),
    ("withdraw", "`withdraw` gets done, short or missing"),
    ("balance", "`balance` gets is N or missing"),
    ("add", "`add` gets added or present"),
    ("remove", "`remove` gets removed or absent"),
    ("has", "`has` gets yes or no"),
    ("size", "`size` gets is N"),
    ("up", "`up` gets done"),
    ("down", "`down` gets done"),
    ("read", "`read` gets is N"),
];

/// Words of other systems, each with what is said of it.
pub(crate) static OTHER_NAMES: WordTable = &[
    ("rollback", "is written as `abort`"),
    ("start", "is written as `begin`"),
    ("insert", "is written as `add`"),
    ("delete", "is written as `remove`"),
    ("contains", "is written as `has`"),
    ("count", "is written as `size`"),
    ("increment", "is written as `up`"),
    ("decrement", "is written as `down`"),
    ("get", "is written as `balance`, `has` or `read`"),
    ("transfer", "is written as `withdraw` and `deposit`"),
    (
        "set",
        "gives no value here: `deposit`, `withdraw`, `up` and `down` change one",
    ),
];

/// What a table says of a word.
pub(crate) fn find_row(table: WordTable, word: &[u8]) -> Option<&'static str> {
    let (_, text) = table.iter().find(|row| row.0.as_bytes() == word)?;
    Some(*text)
}

/// The word of a table that is nearest to this one, if it is at most two edits away and has more letters than that.
pub(crate) fn find_nearest(
    alloc: Global,
    table: WordTable,
    word: &str,
) -> Result<Option<&'static str>, AllocError> {
    let mut nearest = None;
    let mut least = word.len().min(3);
    for (name, _) in table {
        let distance = osa_distance(alloc, word, name)?;
        if distance < least {
            least = distance;
            nearest = Some(*name);
        }
    }
    Ok(nearest)
}
