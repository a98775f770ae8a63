//! What stands at which path.

ghost use Rattle.std.specs.Prelude.{◌≡◌, ◌≢◌, ◌↔◌, ◌++◌, ℕ, List, IfNone, IfSome, IsTrue};
ghost use Rattle.mlt_serve_admin.specs.declared.resources.Resource.{Resource};
ghost use Rattle.mlt_serve_admin.specs.declared.resources.Resource.TheVariants.{SessionEnd};
ghost use Rattle.mlt_serve_admin.specs.Resources.{changes, IsAt, IsAtNoFixedPath, IsMethodOf, methods_of};

use mlt_text_words::{after, read_number};

/// What stands at a path.
#[derive(Clone, Copy)]
pub(crate) enum Resource {
    /// The page for a browser.
    Page,
    /// That the server answers.
    Live,
    /// Whether it takes clients.
    Ready,
    /// The numbers, in JSON.
    Status,
    /// The numbers, for Prometheus.
    Metrics,
    /// Who waits for whom.
    Waits,
    /// The sessions that are served.
    Sessions,
    /// The objects, some at a time.
    Base,
    /// The saving of the base.
    Save,
    /// The end of the server.
    Stop,
    /// The end of the session of this client.
    SessionEnd(u32),
}

impl Resource {
    /// Whether it is asked for by this method.
    pub(crate) fn takes(self, method: &str) -> bool
        ensures { IsTrue result ↔ IsMethodOf method.now self }
    {
        if self.changes() {
            method == "POST"
        } else {
            method == "GET" || method == "HEAD"
        }
    }

    /// The methods by which it is asked for.
    pub(crate) fn methods(self) -> &'static str
        ensures { result.now ≡ methods_of self }
    {
        if self.changes() { "POST" } else { "GET, HEAD" }
    }

    /// Whether to ask for it changes the server.
    pub(crate) fn changes(self) -> bool
        ensures { result ≡ changes self }
    {
        matches!(
            self,
            Resource::Save | Resource::Stop | Resource::SessionEnd(_),
        )
    }
}

/// What stands at this path, if anything does.
pub(crate) fn resource_at(path: &str) -> Option<Resource>
    ensures some { IfSome result (IsAt path.now) }
    ensures none { IfNone result ((resource : Resource) → ¬ (IsAt path.now resource)) }
{
    if let Some(resource) = fixed_resource(path) {
        return Some(resource);
    }
    let client = ended_client(path.as_bytes())?;
    Some(Resource::SessionEnd(client))
}

// The resource at this path that has no number in it.
fn fixed_resource(path: &str) -> Option<Resource>
    ensures some { IfSome result (IsAt path.now) }
    ensures none { IfNone result (IsAtNoFixedPath path.now) }
{
    match path {
        _ if path == "/" => Some(Resource::Page),
        _ if path == "/live" => Some(Resource::Live),
        _ if path == "/ready" => Some(Resource::Ready),
        _ if path == "/status" => Some(Resource::Status),
        _ if path == "/metrics" => Some(Resource::Metrics),
        _ if path == "/waits" => Some(Resource::Waits),
        _ if path == "/sessions" => Some(Resource::Sessions),
        _ if path == "/base" => Some(Resource::Base),
        _ if path == "/save" => Some(Resource::Save),
        _ if path == "/stop" => Some(Resource::Stop),
        _ => None,
    }
}

// The client whose session's end stands at this path.
fn ended_client(path: &[u8]) -> Option<u32>
    ensures some { IfSome result (λ client. IsAt path.now (SessionEnd client)) }
    ensures none { IfNone result ((client : ℕ) → ¬ (IsAt path.now (SessionEnd client))) }
{
    let rest = after(path, b"/sessions/")?;
    let digits = before(rest, b"/end")?;
    let number = read_number(digits)?;
    u32::try_from(number).ok()
}

/// The text before these bytes, where it ends with them.
pub(crate) fn before<'a>(text: &'a [u8], bytes: &[u8]) -> Option<&'a [u8]>
    ensures some { IfSome result (λ front. text.now ≡ front.now ++ bytes.now) }
    ensures none { IfNone result ((front : List ℕ) → text.now ≢ front ++ bytes.now) }
{
    text.strip_suffix(bytes)
}
