//! The answer to one request.

ghost use Rattle.std.specs.Prelude.{◌≡◌, ◌↔◌, ◌⊎◌, codes, IfOk, IsTrue, OnErr, OnOk};
ghost use Rattle.http.specs.Request.{head_of};
ghost use Rattle.http_server.specs.Response.{IsBlank};
ghost use Rattle.mlt_serve_admin.specs.declared.replies.Content.TheVariants as content;
ghost use Rattle.mlt_serve_admin.specs.Replies.{IsReply};
ghost use Rattle.mlt_serve_admin.specs.Answers.{IsAnswerAt, IsAnswerBy, IsMarked, IsRefusedMethod, IsRouteFor, IsSaveAnswer, doings_of};
ghost use Rattle.mlt_serve_admin.specs.Resources.{methods_of};

use crate::hosts::is_direct;
use crate::json::{Sessions, Waits};
use crate::listing::{LISTINGS, Listing};
use crate::metrics::metrics_text;
use crate::operated::Operated;
use crate::page::PAGE;
use crate::replies::{Content, fill, refuse};
use crate::resources::Resource;
use crate::routes::{Route, route_of};
use crate::view::{NotSaved, ServerView};
use bytes::Bytes;
use http::header::ALLOW;
use http::{HeaderValue, Request, StatusCode};
use http_server::{Response, Service};
use serde::Serialize;
use std::alloc::{AllocError, Global};

/// The service of a server that is operated.
#[derive(Drop)]
pub(crate) struct OperatorService<'a, O> {
    pub(crate) alloc: Global,
    pub(crate) operated: &'a O,
}

impl<O: Operated> Service for OperatorService<'_, O> {
    ghost use Rattle.mlt_serve_admin.specs.Answers.{IsAnswer, doings_of};

    ghost answers = { λ old request response new.
        IsAnswer (doings_of O.is_stopped O.is_cut O.is_saved old.operated.now) request response };

    fn call(
        &mut self,
        request: &Request<Bytes>,
        response: &mut Response,
    ) -> Result<(), AllocError> {
        let route = route_for(self.alloc, request)?;
        let query = request.uri().query().unwrap_or("");
        self.answer_by(route, query, response)?;
        Ok(())
    }
}

impl<O: Operated> OperatorService<'_, O> {
    // Answers by this route a request with this query.
    fn answer_by(
        &self,
        route: Route,
        query: &str,
        response: &mut Response,
    ) -> Result<(), AllocError>
        requires { IsBlank response.old }
        ensures { OnOk result (IsAnswerBy
            (doings_of O.is_stopped O.is_cut O.is_saved self.now.operated.now) route response.new) }
    {
        match route {
            Route::Open(resource) => self.answer_at(resource, query, response),
            Route::NotFound => refuse(response, StatusCode::NOT_FOUND, "Not found.\n"),
            Route::MethodNotAllowed(resource) => refuse_method(resource, response),
            Route::Forbidden => {
                let why = "The header X-Mltx: 1 is required.\n";
                refuse(response, StatusCode::FORBIDDEN, why)
            }
            Route::ForeignHost => {
                let why = "The host in Host and Origin must be an IP address or localhost.\n";
                refuse(response, StatusCode::FORBIDDEN, why)
            }
        }
    }

    // Shows what stands there, or does it.
    fn answer_at(
        &self,
        resource: Resource,
        query: &str,
        response: &mut Response,
    ) -> Result<(), AllocError>
        requires { IsBlank response.old }
        ensures { OnOk result (IsAnswerAt
            (doings_of O.is_stopped O.is_cut O.is_saved self.now.operated.now) resource response.new) }
    {
        match resource {
            Resource::Page => fill(response, StatusCode::OK, Content::Page, PAGE),
            Resource::Live => fill(response, StatusCode::OK, Content::Line, "live\n"),
            Resource::Ready => self.tell_ready(response),
            Resource::Status => {
                let view = self.operated.view(self.alloc)?;
                self.show(&view.counts, response)
            }
            Resource::Metrics => {
                let view = self.operated.view(self.alloc)?;
                let text = metrics_text(self.alloc, &view.counts)?;
                fill(response, StatusCode::OK, Content::Metrics, text.as_str())
            }
            Resource::Waits => {
                let ServerView { waits, .. } = self.operated.view(self.alloc)?;
                self.show(&Waits { waits }, response)
            }
            Resource::Sessions => {
                let ServerView { sessions, .. } = self.operated.view(self.alloc)?;
                self.show(&Sessions { sessions }, response)
            }
            Resource::Base => {
                let Some(listing) = Listing::read(query) else {
                    return refuse(response, StatusCode::BAD_REQUEST, LISTINGS);
                };
                let objects = listing.objects(self.alloc, self.operated)?;
                self.show(&objects, response)
            }
            Resource::Save => self.save(response),
            Resource::Stop => {
                self.operated.stop();
                let text = "{\"stopping\":true}\n";
                fill(response, StatusCode::OK, Content::Json, text)
            }
            Resource::SessionEnd(client) => self.end_session(client, response),
        }
    }

    // Tells whether the server takes clients: it has loaded its base, and is not shutting down.
    fn tell_ready(&self, response: &mut Response) -> Result<(), AllocError>
        requires { IsBlank response.old }
        ensures { OnOk result (IsReply 200 content.Line response.new
            ⊎ IsReply 503 content.Line response.new) }
    {
        let view = self.operated.view(self.alloc)?;
        if view.counts.is_loading {
            let why = "The base is still being loaded.\n";
            refuse(response, StatusCode::SERVICE_UNAVAILABLE, why)
        } else if view.counts.is_stopping {
            let why = "The server is shutting down.\n";
            refuse(response, StatusCode::SERVICE_UNAVAILABLE, why)
        } else {
            fill(response, StatusCode::OK, Content::Line, "ready\n")
        }
    }

    // Shows a value, as a line of JSON.
    fn show<T: Serialize>(&self, value: &T, response: &mut Response) -> Result<(), AllocError>
        requires { IsBlank response.old }
        ensures { OnOk result (IsReply 200 content.Json response.new) }
    {
        let Ok(mut text) = serde_json::to_string(self.alloc, value) else {
            return Err(AllocError);
        };
        text.push('\n')?;
        fill(response, StatusCode::OK, Content::Json, text.as_str())
    }

    // Saves the base.
    fn save(&self, response: &mut Response) -> Result<(), AllocError>
        requires { IsBlank response.old }
        ensures { OnOk result (IsSaveAnswer (O.is_saved self.now.operated.now) response.new) }
    {
        match self.operated.save() {
            Ok(commits) => {
                let text = format!(in self.alloc; "{{\"saved\":true,\"commits\":{commits}}}\n")?;
                fill(response, StatusCode::OK, Content::Json, text.as_str())
            }
            Err(NotSaved::NoFile) => {
                let why =
                    "The server has no file for its base: it was started without --data or --save.\n";
                refuse(response, StatusCode::NOT_FOUND, why)
            }
            Err(NotSaved::Loading) => {
                let why = "The base is still being loaded.\n";
                refuse(response, StatusCode::SERVICE_UNAVAILABLE, why)
            }
            Err(NotSaved::Busy) => {
                let why = "The base is being saved already.\n";
                refuse(response, StatusCode::SERVICE_UNAVAILABLE, why)
            }
            Err(NotSaved::Failed(error)) => {
                let why = format!(in self.alloc; "The base was not saved: {error}.\n")?;
                refuse(response, StatusCode::INTERNAL_SERVER_ERROR, why.as_str())
            }
        }
    }

    // Cuts the session of this client.
    fn end_session(&self, client: u32, response: &mut Response) -> Result<(), AllocError>
        requires { IsBlank response.old }
        ensures { OnOk result
            ((O.is_cut self.now.operated.now client × IsReply 200 content.Json response.new)
            ⊎ IsReply 404 content.Line response.new) }
    {
        if self.operated.end_session(client) {
            let text = format!(in self.alloc; "{{\"ended\":{client}}}\n")?;
            fill(response, StatusCode::OK, Content::Json, text.as_str())
        } else {
            let why = "There is no session of this client.\n";
            refuse(response, StatusCode::NOT_FOUND, why)
        }
    }
}

// How this request is answered.
fn route_for(alloc: Global, request: &Request<Bytes>) -> Result<Route, AllocError>
    ensures { IfOk result (IsRouteFor request.now) }
{
    Ok(route_of(
        request.method().as_str(),
        request.uri().path(),
        is_direct(alloc, request)?,
        is_marked(request),
    ))
}

// Refuses a request by another method than that of the resource.
fn refuse_method(resource: Resource, response: &mut Response) -> Result<(), AllocError>
    requires { IsBlank response.old }
    ensures { OnOk result (IsRefusedMethod resource response.new) }
{
    let why = "Method not allowed.\n";
    refuse(response, StatusCode::METHOD_NOT_ALLOWED, why)?;
    response.add_header(ALLOW, allow(resource))
}

fn allow(resource: Resource) -> HeaderValue
    ensures { result.bytes ≡ methods_of resource }
{
    HeaderValue::from_static(resource.methods())
}

// Whether the request has the header that a browser adds for no page of somebody else.
fn is_marked(request: &Request<Bytes>) -> bool
    ensures { IsTrue result ↔ IsMarked (head_of request.now).headers }
{
    match request.headers().get("x-mltx") {
        Some(value) => value.as_bytes() == b"1".as_slice(),
        None => false,
    }
}
