//! Where a hash file begins.

use mlt_types::PageNo;

/// What a look-up in a hash file has to know of the file: where its header is, how deep its directory may get, and
/// the function from keys to pseudokeys.
#[derive(Debug, Drop)]
pub struct Root<P> {
    /// The page of the header.
    pub page: PageNo,
    /// The greatest depth of the directory, 0 to 16.
    pub max_depth: u8,
    /// The function from keys to pseudokeys.
    pub pseudo: P,
}
