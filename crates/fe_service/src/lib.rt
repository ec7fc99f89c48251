//! The service of what waits: which requests complete, and what that leaves (`docs/model.md`, "The service").
#![tactic(auto)]

mod attachment;
mod attachments;
mod beginning;
mod finishing;
mod laws;
mod occupant;
mod service;
mod service_inner;
mod slots;
mod waiting_request;

pub use attachment::Attachment;
pub use attachments::Attachments;
pub use laws::service_is_legal;
pub use service::Service;
pub use waiting_request::WaitingRequest;
