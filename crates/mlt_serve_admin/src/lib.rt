//! What an operator sees of a server, and may do to it, over HTTP: `serve_admin` answers requests
//! for its state, and requests to end it, to cut a session or to save its base. It is proved which requests are open,
//! which status and headers each answer has, and that no answer reports an end, a cut or a save
//! without the call. The texts and the page are only tested. There is no password: anyone who can reach the
//! address may do everything.
#![tactic(auto)]

mod hosts;
mod json;
mod listing;
mod metrics;
mod operated;
mod page;
mod process;
mod replies;
mod resources;
mod routes;
mod service;
mod serving;
mod view;

pub use operated::Operated;
pub use process::{Build, ProcessFigures, ProcessFiles};
pub use serving::serve_admin;
pub use view::{
    Counts, NotSaved, ObjectView, ObjectsView, ServerView, SessionView, TransactionView,
    WaitReason, WaitView, WantedObjects,
};
