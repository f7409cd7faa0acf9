//! What the client knows by its own events, and what it may do next, whatever the share does.
#![tactic(auto)]
