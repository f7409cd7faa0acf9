//! The share as a machine: what a request answers, and what the share holds afterwards. It is written after MS-FSA; the order of the
//! checks, the leases' breaks and grants are this project's own.
#![tactic(auto)]

mod breaks;
mod close;
mod create;
mod granting;
mod lost;
mod needs;
mod query;
mod run;

pub use breaks::conflicts;
pub use lost::cut;
pub use run::step;
