//! The environment of a walk.

use mlt_hash_form::Root;
use mlt_types::OpenSet;

/// What a step of a walk goes by: the root of its hash file, and the open transactions.
#[derive(Clone, Copy, Debug)]
pub struct Environment<'a, P> {
    pub root: &'a Root<P>,
    pub active: &'a OpenSet,
}
