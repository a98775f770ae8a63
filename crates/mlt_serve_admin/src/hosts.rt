//! The hosts by which a request may name this server: IP addresses and `localhost`, which are not looked up in DNS. The owner of any
//! other name can have it resolve to the address of this server, and a browser then takes the owner's page for one of this server.

ghost use Rattle.std.specs.Prelude.{ℕ, List, ◌≡◌, ◌↔◌, ◌⊎◌, codes, IfOk, IsTrue};
ghost use Rattle.std.specs.Net.Grammar.{IsIpv4Text, IsIpv6Text};
ghost use Rattle.std.specs.declared.net.ipv4_addr.Ipv4Addr.{Ipv4Addr as Ipv4};
ghost use Rattle.std.specs.Str.{str_eq_ignore_ascii_case};
ghost use Rattle.http.specs.Request.{head_of};
ghost use Rattle.mlt_serve_admin.specs.Hosts.{HasDirectHost, HasDirectOrigin, IsDirectAfter, IsDirectAuthority, IsDirectHost, IsDirectOrigin, IsDirectRequest, IsIpv6InBrackets};

use crate::resources::before;
use bytes::Bytes;
use http::Request;
use http::uri::{Authority, UriError};
use mlt_text_words::after;
use std::alloc::{AllocError, Global};
use std::net::{Ipv4Addr, Ipv6Addr};

/// Whether a request names this server by such a host, and comes from no page of any other.
pub(crate) fn is_direct(alloc: Global, request: &Request<Bytes>) -> Result<bool, AllocError>
    ensures { IfOk result (λ direct.
        IsTrue direct ↔ IsDirectRequest (head_of request.now).headers) }
{
    Ok(has_direct_host(alloc, request)? && has_direct_origin(alloc, request)?)
}

fn has_direct_host(alloc: Global, request: &Request<Bytes>) -> Result<bool, AllocError>
    ensures { IfOk result (λ direct. IsTrue direct ↔ HasDirectHost (head_of request.now).headers) }
{
    match request.headers().get("host") {
        Some(host) => is_direct_authority(alloc, host.as_bytes()),
        None => Ok(false),
    }
}

// In this header a browser says of which host the page is. It may leave it out where that is the server's own.
fn has_direct_origin(alloc: Global, request: &Request<Bytes>) -> Result<bool, AllocError>
    ensures { IfOk result (λ direct.
        IsTrue direct ↔ HasDirectOrigin (head_of request.now).headers) }
{
    match request.headers().get("origin") {
        Some(origin) => is_direct_origin(alloc, origin.as_bytes()),
        None => Ok(true),
    }
}

fn is_direct_origin(alloc: Global, origin: &[u8]) -> Result<bool, AllocError>
    ensures { IfOk result (λ direct. IsTrue direct ↔ IsDirectOrigin origin.now) }
{
    Ok(is_direct_after(alloc, origin, b"http://")? || is_direct_after(alloc, origin, b"https://")?)
}

fn is_direct_after(alloc: Global, origin: &[u8], scheme: &[u8]) -> Result<bool, AllocError>
    ensures { IfOk result (λ direct. IsTrue direct ↔ IsDirectAfter scheme.now origin.now) }
{
    match after(origin, scheme) {
        Some(authority) => is_direct_authority(alloc, authority),
        None => Ok(false),
    }
}

// Of a host, and of a port where one is given.
fn is_direct_authority(alloc: Global, authority: &[u8]) -> Result<bool, AllocError>
    ensures { IfOk result (λ direct. IsTrue direct ↔ IsDirectAuthority authority.now) }
{
    match Authority::from_bytes(alloc, authority) {
        Ok(authority) => Ok(is_direct_host(authority.host().as_bytes())),
        Err(UriError::Invalid(_)) => Ok(false),
        Err(UriError::OutOfMemory) => Err(AllocError),
    }
}

fn is_direct_host(host: &[u8]) -> bool
    ensures { IsTrue result ↔ IsDirectHost host.now }
{
    host.eq_ignore_ascii_case(b"localhost") || is_ipv4(host) || is_ipv6_in_brackets(host)
}

fn is_ipv4(text: &[u8]) -> bool
    ensures { IsTrue result ↔ ((address : Ipv4) × IsIpv4Text text.now address) }
{
    matches!(Ipv4Addr::parse_ascii(text), Ok(_))
}

fn is_ipv6_in_brackets(host: &[u8]) -> bool
    ensures { IsTrue result ↔ IsIpv6InBrackets host.now }
{
    let Some(rest) = after(host, b"[") else {
        return false;
    };
    let Some(text) = before(rest, b"]") else {
        return false;
    };
    matches!(Ipv6Addr::parse_ascii(text), Ok(_))
}
