//! How many operations a script asks at most.

ghost use Rattle.std.specs.Prelude.{◌≤◌};
ghost use Rattle.mlt_script_serial.specs.Follows.{AsksAtMost, questions_of_script};

use mlt_script::Script;

// The most operations on a path of a script.
const MOST: usize = 256;

/// The most operations that a script executes, whatever replies it gets. It takes no memory.
pub fn most_asked(script: &Script) -> usize
    ensures most { AsksAtMost result (questions_of_script script.now) }
    ensures limit { result ≤ 256 }
{
    script.lines().len().min(MOST)
}
