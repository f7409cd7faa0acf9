//! Calls of public functions that no row of `fs_rows` and no vector of `smb_show` makes, each with ample memory. It has no code of its
//! own: the crates below are proved once, and not a second time with tests.
#![tactic(auto)]

#[cfg(test)]
mod adapters;
#[cfg(test)]
mod base;
#[cfg(test)]
mod calls;
#[cfg(test)]
mod handles;
#[cfg(test)]
mod lines;
#[cfg(test)]
mod mux;
#[cfg(test)]
mod share;
#[cfg(test)]
mod wire;
