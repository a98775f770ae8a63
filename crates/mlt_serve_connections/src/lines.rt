//! What the bytes of a session are.

ghost use Rattle.std.specs.Prelude.{◌≡◌};
ghost use Rattle.mlt_serve_connections.specs.Lines.{ends_as_http};

use mlt_text_words::trimmed;

/// Whether a line, without its LF, ends as the first line of an HTTP request does. A web page can make a browser send such a request,
/// with lines of a session behind it.
pub(crate) fn ends_as_http(line: &[u8]) -> bool
    ensures { result ≡ ends_as_http line.now }
{
    let line = trimmed(line);
    line.ends_with(b" HTTP/1.0") || line.ends_with(b" HTTP/1.1")
}
