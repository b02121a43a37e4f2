//! Connections and the ports from which they come, as traits with a written meaning: each counts its faults, and one that is honest
//! tells its content.
//!
//! A session of HTTP requests over one connection: what is written is a function of the connection's bytes and of the
//! replies of the clerk who answers them, however the connection cuts its bytes.
#![tactic(auto)]

mod call;
mod call_forms;
mod clerk;
mod end;
mod head;
mod head_state;
mod laws;
mod link;
mod next_request;
mod pieces;
mod port;
mod response;
mod scan;
mod session;
mod status;
mod stop;

pub use call::ApiCall;
pub use call_forms::Api;
pub use clerk::Handler;
pub use end::End;
pub use head::Head;
pub use laws::{first_end, front_begins, one_exchange, one_judgment, two_exchanges};
pub use link::{Connection, write_all};
pub use port::Acceptor;
pub use response::Answer;
pub use session::serve;
pub use status::Status;
