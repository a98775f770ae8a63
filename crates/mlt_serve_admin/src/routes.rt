//! How a request is answered, by its method, its path, the host that it names and whether it is marked.

ghost use Rattle.std.specs.Prelude.{◌≡◌};
ghost use Rattle.mlt_serve_admin.specs.Routes.{IsRouteOf, IsRouteTo};

use crate::resources::{Resource, resource_at};

/// How a request is answered.
#[derive(Clone, Copy)]
pub(crate) enum Route {
    /// The resource is shown, or what stands there is done.
    Open(Resource),
    /// Nothing stands at the path.
    NotFound,
    /// The resource is asked for by another method.
    MethodNotAllowed(Resource),
    /// What would change the server is not marked.
    Forbidden,
    /// The request names the server by a host that is looked up in DNS, or comes from a page of one.
    ForeignHost,
}

/// How a request is answered. One that changes the server has to be marked, lest a page of somebody else have a browser send it: no
/// browser adds a header of a page to what goes to another server before it has asked that one.
pub(crate) fn route_of(method: &str, path: &str, is_direct: bool, is_marked: bool) -> Route
    ensures { IsRouteOf method.now path.now is_direct is_marked result }
{
    if !is_direct {
        return Route::ForeignHost;
    }
    match resource_at(path) {
        Some(resource) => route_to(resource, method, is_marked),
        None => Route::NotFound,
    }
}

fn route_to(resource: Resource, method: &str, is_marked: bool) -> Route
    ensures { IsRouteTo resource method.now is_marked result }
{
    if !resource.takes(method) {
        Route::MethodNotAllowed(resource)
    } else if resource.changes() && !is_marked {
        Route::Forbidden
    } else {
        Route::Open(resource)
    }
}
