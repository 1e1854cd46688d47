//! What a command does after a history: the entries that it makes, or why it is refused, and the reply.
#![tactic(auto)]

mod asked;
mod asking;
mod batch;
mod bulk;
mod decision;
mod documents;
mod finding;
mod giving;
mod indices;
mod laws;
mod making;
mod moved;
mod replying;
mod rows;
mod standing;
mod starting;
mod stepping;
mod transforms;

pub use decision::{Decision, decide};
pub use laws::no_refusal_depends_on_the_moment;
pub use moved::reply;
pub use stepping::may_step;
