//! What follows where a bucket has no room.

ghost use Rattle.std.specs.Prelude.{◌≡◌, ◌≤◌, MatchOption};
ghost use Rattle.mlt_hash.specs.Changes.{crowded_in};
ghost use Rattle.mlt_hash.specs.Passes.{HasRoomFrom, IsNextPass, NeverHasRoom};

use crate::pass::Pass;
use mlt_hash_form::depth_with_room;
use mlt_hash_split::Environment;
use mlt_page::Bucket;
use mlt_types::{Key, Pseudo};

/// The pass that splits a bucket without room, in a directory of depth `directory_depth`: a narrow one where the
/// directory needn't be doubled, and one page of it has all entries of the bucket. With it the least depth at which the
/// bucket has room for the key, if there is one.
pub(crate) fn next_pass<P: Pseudo>(
    bucket: &Bucket,
    directory_depth: u8,
    key: Key,
    environment: &Environment<P>,
) -> (Pass, Option<u8>)
    requires depth { environment.now.root.now.max_depth ≤ 16 }
    requires bucket { bucket.now.depth ≤ 16 }
    ensures pass { IsNextPass (crowded_in P.bits_of environment.now key bucket.now.slots)
        bucket.now.depth environment.now.root.now.max_depth directory_depth result.0 }
    ensures depth { let crowded = crowded_in P.bits_of environment.now key bucket.now.slots in
        MatchOption result.1 (NeverHasRoom crowded bucket.now.depth
        environment.now.root.now.max_depth)
        (λ d. HasRoomFrom crowded bucket.now.depth environment.now.root.now.max_depth d) }
    ensures narrow { result.0 ≡ Pass.Narrow
        → MatchOption result.1 (bucket.now.depth ≤ directory_depth) (λ d. d ≤ directory_depth) }
{
    let least = depth_with_room(
        bucket,
        environment.root.max_depth,
        environment.root.pseudo.bits(&key),
        &environment.root.pseudo,
        environment.active,
    );
    let needed = least.unwrap_or(bucket.depth);
    let pass = if needed <= directory_depth && directory_depth <= bucket.depth + 8 {
        Pass::Narrow
    } else {
        Pass::Wide
    };
    (pass, least)
}
