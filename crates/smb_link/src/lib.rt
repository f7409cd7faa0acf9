//! The outside of the program: where bytes come from and go to, the connection, the clock, and the story that a connection tells.
#![tactic(auto)]

mod adapters;
mod clocks;
mod event;
mod faults;
mod list_link;
mod mark;
mod places;
mod sinks;
mod sources;
mod traits;

pub use adapters::{HostClock, ReadSource, TcpLink, WriteSink};
pub use clocks::MemClock;
pub use event::{Event, EventList};
pub use faults::{Failed, Got, LinkFail};
pub use list_link::{Given, GivenList, ListLink};
pub use mark::Mark;
pub use places::{Place, PlaceList};
pub use sinks::{MemSink, SureSink};
pub use sources::{MemSource, SureSource};
pub use traits::{Clock, Link, Sink, Source};
