//! Scripts.

ghost use Rattle.std.specs.Prelude.{◌≡◌, ◌<◌, ◌≤◌};
ghost use Rattle.mlt_script.specs.Blocks.{longest, nesting, lines_of};
ghost use Rattle.mlt_script.specs.Scripts.{tree_of};

use crate::statement::{Ending, Line};
use std::marker::Model;

/// A script: a client's number below 1000, statements that ask at most 256 operations on each path and stand in at
/// most 16 ifs, and an ending. A contract sees the statements as a tree.
#[derive(Debug, Drop)]
pub struct Script {
    client: u16,
    lines: Vec<Line>,
    ending: Ending,
}

impl Model for Script {
    ghost use Rattle.std.specs.Prelude.{◌≡◌, ◌<◌, ◌≤◌};
    ghost use Rattle.mlt_script.specs.Blocks.{longest, nesting, lines_of};
    ghost use Rattle.mlt_script.specs.Scripts.{ScriptForm, tree_of};
    ghost use Rattle.mlt_script.specs.TreeLaws.{coded_script};

    ghost Value = { ScriptForm };

    ghost coded = { coded_script };

    ghost view = { λ s.
        record { client = s.client; block = tree_of s.lines.items; ending = s.ending } };

    ghost invariant = { λ s. (s.client < 1000) × (lines_of (tree_of s.lines.items) ≡ s.lines.items)
        × (longest (tree_of s.lines.items) ≤ 256) × (nesting (tree_of s.lines.items) ≤ 16) };
}

impl Script {
    /// A script of these lines.
    pub fn new(client: u16, lines: Vec<Line>, ending: Ending) -> Script
        requires client { client < 1000 }
        requires lines { lines_of (tree_of lines.items) ≡ lines.items }
        requires longest { longest (tree_of lines.items) ≤ 256 }
        requires nesting { nesting (tree_of lines.items) ≤ 16 }
        ensures { result
            ≡ record { client = client; block = tree_of lines.items; ending = ending } }
    {
        Script {
            client,
            lines,
            ending,
        }
    }

    /// The client's number, below 1000.
    pub fn client(&self) -> u16
        ensures client { result ≡ self.now.client }
        ensures limit { result < 1000 }
    {
        self.client
    }

    /// The lines between the `begin` and the ending, with an `else` in each `if`.
    pub fn lines(&self) -> &[Line]
        ensures lines { result.now ≡ lines_of self.now.block }
        ensures longest { longest self.now.block ≤ 256 }
        ensures nesting { nesting self.now.block ≤ 16 }
    {
        self.lines.as_slice()
    }

    /// How the script ends where no `need` fails.
    pub fn ending(&self) -> Ending
        ensures { result ≡ self.now.ending }
    {
        self.ending
    }
}
