//! Replies to requests.

ghost use Rattle.std.specs.Prelude.{◌≡◌, ◌++◌, OnErr, OnOk};
ghost use Rattle.http_server.specs.Response.{IsBlank};
ghost use Rattle.mlt_serve_admin.specs.Replies.{content_type_of, headers_of, IsReply, security_policy};

use bytes::BufMut;
use http::header::{
    CACHE_CONTROL, CONNECTION, CONTENT_SECURITY_POLICY, CONTENT_TYPE, X_FRAME_OPTIONS,
};
use http::{HeaderValue, StatusCode};
use http_server::Response;
use std::alloc::AllocError;

// What a browser may do with an answer: as much as the page does, in no frame.
const SECURITY_POLICY: &str =
    "default-src 'none'; script-src 'unsafe-inline'; style-src 'unsafe-inline'; \
    img-src data:; connect-src 'self'; frame-ancestors 'none'";

/// Of what a body is.
#[derive(Clone, Copy)]
pub(crate) enum Content {
    /// JSON.
    Json,
    /// Prometheus' text format, version 0.0.4.
    Metrics,
    /// The page for a browser.
    Page,
    /// A line in English.
    Line,
}

impl Content {
    fn header(self) -> HeaderValue
        ensures { result.bytes ≡ content_type_of self }
    {
        match self {
            Content::Json => HeaderValue::from_static("application/json"),
            Content::Metrics => {
                HeaderValue::from_static("text/plain; version=0.0.4; charset=utf-8")
            }
            Content::Page => HeaderValue::from_static("text/html; charset=utf-8"),
            Content::Line => HeaderValue::from_static("text/plain; charset=utf-8"),
        }
    }
}

/// Makes a response a reply, after which the connection closes.
pub(crate) fn fill(
    response: &mut Response,
    status: StatusCode,
    content: Content,
    body: &str,
) -> Result<(), AllocError>
    requires { IsBlank response.old }
    ensures { OnOk result (IsReply status content response.new) }
{
    response.status = status;
    response.add_header(CONNECTION, HeaderValue::from_static("close"))?;
    response.add_header(CONTENT_TYPE, content.header())?;
    response.add_header(CACHE_CONTROL, HeaderValue::from_static("no-store"))?;
    let policy = HeaderValue::from_static(SECURITY_POLICY);
    response.add_header(CONTENT_SECURITY_POLICY, policy)?;
    response.add_header(X_FRAME_OPTIONS, HeaderValue::from_static("DENY"))?;
    response.body.put_slice(body.as_bytes())
}

/// Makes a response a refusal, which says why.
pub(crate) fn refuse(
    response: &mut Response,
    status: StatusCode,
    why: &str,
) -> Result<(), AllocError>
    requires { IsBlank response.old }
    ensures { OnOk result (IsReply status Content.Line response.new) }
{
    fill(response, status, Content::Line, why)
}
