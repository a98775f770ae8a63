//! What tests compare. The comparison is proved once here, and each test only calls it.

ghost use Rattle.std.specs.Prelude.{◌≡◌, OnOk, OnErr, true, false};

use std::fmt::Debug;
use std::test::Fail;

/// The value that was found at this place is the one that is wanted.
///
/// # Errors
/// The place and both values, where they differ.
pub fn same_at<P: Debug, T: PartialEq + Debug>(place: &P, found: &T, wanted: &T) -> Result<(), Fail>
    ensures ok { OnOk result (T.eq found.now wanted.now ≡ true) }
    ensures err { OnErr result (T.eq found.now wanted.now ≡ false) }
{
    if found == wanted {
        return Ok(());
    }
    Err(Fail::new(format_args!("at {place:?}: found {found:?}, wanted {wanted:?}")))
}
