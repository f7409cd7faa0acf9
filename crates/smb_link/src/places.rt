//! The places that a link connected to. A link keeps them for its contract alone.

ghost use Rattle.std.specs.Prelude.{◌≡◌, [], OnOk, OnErr};
ghost use Rattle.smb_link.specs.Once.{is_last, same_place, went};

use smb_base::{NoMemory, Text};
use std::alloc::Global;
use std::marker::Model;

/// A place to connect to.
#[derive(Debug, Drop)]
pub struct Place {
    /// The name or the address of the host.
    pub host: Text,
    /// The port.
    pub port: u16,
}

impl Place {
    /// Whether it is this one.
    fn is(&self, host: &str, port: u16) -> bool
        ensures { result ≡ same_place self.now (record { host = host.now; port = port }) }
    {
        self.host.as_str() == host && self.port == port
    }
}

/// Places in their order. A contract sees the list of them.
#[derive(Debug, Drop)]
pub struct PlaceList {
    held: Vec<Place>,
}

impl Model for PlaceList {
    ghost use Rattle.std.specs.Prelude.{List};
    ghost use Rattle.smb_link.specs.declared.places.Place.{Place};

    ghost Value = { List Place };

    ghost view = { λ l. l.held.items };
}

impl PlaceList {
    /// No place. It takes no memory.
    pub fn new(alloc: Global) -> PlaceList
        ensures { result ≡ [] }
    {
        PlaceList {
            held: Vec::new(alloc),
        }
    }

    /// Adds a place at the end, unless it is the last one already: so places that stay the same take no more memory. For want of
    /// memory nothing is changed.
    pub fn go(&mut self, alloc: Global, host: &str, port: u16) -> Result<(), NoMemory>
        ensures ok { OnOk result (self.new ≡ went (record { host = host.now; port = port }) self.old) }
        ensures err { OnErr result (self.new ≡ self.old) }
    {
        if self.is_last(host, port) {
            return Ok(());
        }
        let host = Text::of(alloc, host)?;
        self.held.push(Place { host, port })?;
        Ok(())
    }

    /// Whether this is the last place.
    fn is_last(&self, host: &str, port: u16) -> bool
        ensures { result ≡ is_last same_place (record { host = host.now; port = port }) self.now }
    {
        match self.held.last() {
            Some(place) => place.is(host, port),
            None => false,
        }
    }
}
