//! A link in memory that gives a list of turns and tells its story. For tests.

ghost use Rattle.std.specs.Prelude.{◌≡◌, ◌≤◌, ◌<◌, ◌-◌, ◌&&◌, ◌++◌, ◌∷◌, [], OnOk, OnErr, IfOk, IsOk, IsTrue, Some, true, false, not, min, filter, length, take, drop, if◌then◌else◌};
ghost use Rattle.smb_link.specs.declared.event.Event.TheVariants as event;
ghost use Rattle.smb_link.specs.Count.{counted};
ghost use Rattle.smb_link.specs.Given.{gives, front_of, turns_behind, turns_after, piece_of, GivesNext};
ghost use Rattle.smb_link.specs.Once.{went, WentAfterConnect};
ghost use Rattle.smb_link.specs.Story.{story_with, is_failed, connect_cuts, StandsAfterConnect, connect_events, send_events, receive_events, is_closed, is_quiet, IfBytes};

use crate::event::{Event, EventList};
use crate::faults::{Got, LinkFail};
use crate::mark::Mark;
use crate::places::PlaceList;
use crate::traits::Link;
use smb_base::{Bytes, NoMemory};
use std::alloc::Global;
use std::marker::Model;

/// What a [`ListLink`](crate::ListLink) gives at a receive.
#[derive(Debug, Drop)]
pub enum Given {
    /// Bytes that come, in as many receives as the buffers ask for. An empty piece is passed over.
    Piece(Bytes),
    /// Nothing comes for a while.
    Quiet,
    /// The connection ends.
    Closed,
}

impl Given {
    /// Whether it gives anything: an empty piece does not.
    fn gives(&self) -> bool
        ensures { result ≡ gives self.now }
    {
        match self {
            Given::Piece(bytes) => !bytes.is_empty(),
            Given::Quiet => true,
            Given::Closed => true,
        }
    }
}

/// What comes next at a [`ListLink`].
#[derive(Clone, Copy)]
enum Front {
    Piece,
    Quiet,
    Closed,
}

/// Turns in their order. A contract sees the list of them.
#[derive(Debug, Drop)]
pub struct GivenList {
    held: Vec<Given>,
}

impl Model for GivenList {
    ghost use Rattle.std.specs.Prelude.{List};
    ghost use Rattle.smb_link.specs.declared.list_link.Given.{Given};

    ghost Value = { List Given };

    ghost view = { λ l. l.held.items };
}

impl GivenList {
    /// No turn. It takes no memory.
    pub fn new(alloc: Global) -> GivenList
        ensures { result ≡ [] }
    {
        GivenList {
            held: Vec::new(alloc),
        }
    }

    /// Lends the turns.
    pub fn as_slice(&self) -> &[Given]
        ensures { result.now ≡ self.now }
    {
        self.held.as_slice()
    }

    /// Adds a turn at the end. For want of memory nothing is changed.
    pub fn push(&mut self, turn: Given) -> Result<(), NoMemory>
        ensures ok { OnOk result (self.new ≡ self.old ++ turn ∷ []) }
        ensures err { OnErr result (self.new ≡ self.old) }
    {
        self.held.push(turn)?;
        Ok(())
    }
}

/// Drops the turns that give nothing.
fn drop_empty(turns: &mut Vec<Given>)
    ensures { turns.new.items ≡ filter gives turns.old.items }
{
    turns.retain(
        |turn| -> bool
            ensures { result ≡ gives turn.now }
        { turn.gives() },
    );
}

/// A link in memory: its first connects fail, as many as it is told, and then it gives its turns, and at their end it is closed. A
/// send fails only where no connection stands. It tells its story.
#[derive(Debug, Drop)]
pub struct ListLink {
    alloc: Global,
    refused: u32,
    turns: Vec<Given>,
    next: usize,
    at: usize,
    stands: bool,
    story: EventList,
    connect_faults: u64,
    cuts: u64,
    own_cuts: u64,
    quiets: u64,
    places: PlaceList,
}

impl Model for ListLink {
    ghost use Rattle.std.specs.Prelude.{drop, length, ◌≤◌};
    ghost use Rattle.smb_link.specs.Given.{Giving, without_front, IsWithinFirst, AllGive};

    ghost Value = { Giving };

    ghost view = { λ l. record { refused = l.refused; turns = without_front l.at (drop l.next l.turns.items); stands = l.stands; story = l.story; connect_faults = l.connect_faults; cuts = l.cuts; own_cuts = l.own_cuts; quiets = l.quiets; places = l.places } };

    ghost invariant = { λ l. (l.next ≤ length l.turns.items) × IsWithinFirst l.at (drop l.next l.turns.items) × AllGive l.turns.items };
}

impl ListLink {
    /// A link whose first `refused` connects fail and which then gives these turns. No connection stands yet.
    pub fn new(alloc: Global, refused: u32, turns: GivenList) -> ListLink
        ensures { result ≡ record { refused = refused; turns = filter gives turns; stands = false; story = []; connect_faults = 0; cuts = 0; own_cuts = 0; quiets = 0; places = [] } }
    {
        let mut held = turns.held;
        drop_empty(&mut held);
        ListLink {
            alloc,
            refused,
            turns: held,
            next: 0,
            at: 0,
            stands: false,
            story: EventList::new(alloc),
            connect_faults: 0,
            cuts: 0,
            own_cuts: 0,
            quiets: 0,
            places: PlaceList::new(alloc),
        }
    }

    /// Lends the story so far.
    pub fn story(&self) -> &EventList
        ensures { result.now ≡ self.now.story }
    {
        &self.story
    }

    /// Which kind of turn comes next.
    fn front(&self) -> Front
        ensures { result ≡ front_of self.now.turns }
    {
        match self.turns.get(self.next) {
            Some(Given::Piece(_)) => Front::Piece,
            Some(Given::Quiet) => Front::Quiet,
            Some(Given::Closed) => Front::Closed,
            None => Front::Closed,
        }
    }

    /// Ends the connection. For want of memory nothing is changed.
    fn end(&mut self) -> Result<(), NoMemory>
        ensures ok { OnOk result (self.new ≡ record self.old { stands = false; story = self.old.story ++ event.Cut ∷ []; cuts = counted self.old.cuts true }) }
        ensures err { OnErr result (self.new ≡ self.old) }
    {
        self.story.push(Event::Cut)?;
        self.stands = false;
        self.cuts = self.cuts.saturating_add(1);
        Ok(())
    }

    /// Ends the connection that stands for another one. For want of memory nothing is changed.
    fn leave(&mut self) -> Result<(), NoMemory>
        ensures ok { OnOk result (self.new ≡ record self.old { stands = false; story = self.old.story ++ event.Cut ∷ []; cuts = counted self.old.cuts true; own_cuts = counted self.old.own_cuts true }) }
        ensures err { OnErr result (self.new ≡ self.old) }
    {
        self.end()?;
        self.own_cuts = self.own_cuts.saturating_add(1);
        Ok(())
    }

    /// Tells the place of a connect. For want of memory nothing is changed.
    fn go(&mut self, host: &str, port: u16) -> Result<(), NoMemory>
        ensures ok { OnOk result (self.new ≡ record self.old { places = went (record { host = host.now; port = port }) self.old.places }) }
        ensures err { OnErr result (self.new ≡ self.old) }
    {
        self.places.go(self.alloc, host, port)
    }

    /// Fails to connect, as it was told to. For want of memory nothing is changed.
    fn refuse(&mut self) -> Result<(), NoMemory>
        requires { 0 < self.old.refused }
        ensures ok { OnOk result (self.new ≡ record self.old { refused = self.old.refused - 1; stands = false; story = self.old.story ++ event.NotJoined ∷ []; connect_faults = counted self.old.connect_faults true }) }
        ensures err { OnErr result (self.new ≡ self.old) }
    {
        self.story.push(Event::NotJoined)?;
        self.refused -= 1;
        self.stands = false;
        self.connect_faults = self.connect_faults.saturating_add(1);
        Ok(())
    }

    /// Connects. For want of memory nothing is changed.
    fn join(&mut self) -> Result<(), NoMemory>
        ensures ok { OnOk result (self.new ≡ record self.old { stands = true; story = self.old.story ++ event.Joined ∷ [] }) }
        ensures err { OnErr result (self.new ≡ self.old) }
    {
        self.story.push(Event::Joined)?;
        self.stands = true;
        Ok(())
    }

    /// Takes a frame. For want of memory nothing is changed.
    fn take(&mut self, frame: Bytes) -> Result<(), NoMemory>
        ensures ok { OnOk result (self.new ≡ record self.old { story = self.old.story ++ event.Sent frame ∷ [] }) }
        ensures err { OnErr result (self.new ≡ self.old) }
    {
        self.story.push(Event::Sent(frame))
    }

    /// Fails to take a frame, for there is no connection. For want of memory nothing is changed.
    fn lose(&mut self, frame: Bytes) -> Result<(), NoMemory>
        ensures ok { OnOk result (self.new ≡ record self.old { stands = false; story = self.old.story ++ event.Sent frame ∷ event.Cut ∷ []; cuts = counted self.old.cuts true }) }
        ensures err { OnErr result (self.new ≡ self.old) }
    {
        self.story.push_both(Event::Sent(frame), Event::Cut)?;
        self.stands = false;
        self.cuts = self.cuts.saturating_add(1);
        Ok(())
    }

    /// Waits in vain. For want of memory nothing is changed.
    fn wait(&mut self) -> Result<(), NoMemory>
        ensures ok { OnOk result (self.new ≡ record self.old { story = self.old.story ++ event.Quiet ∷ []; quiets = counted self.old.quiets true }) }
        ensures err { OnErr result (self.new ≡ self.old) }
    {
        self.story.push(Event::Quiet)?;
        self.quiets = self.quiets.saturating_add(1);
        Ok(())
    }

    /// Goes past the next turn, or stays at the end.
    fn pass(&mut self)
        ensures { self.new ≡ record self.old { turns = turns_behind self.old.turns } }
    {
        if self.next < self.turns.len() {
            self.next += 1;
            self.at = 0;
        }
    }

    /// The bytes that the next turn still gives, if it is a piece.
    fn piece(&self) -> &[u8]
        ensures bytes { result.now ≡ piece_of self.now.turns }
        ensures some { front_of self.now.turns ≡ Front.Piece → 0 < length result.now }
    {
        match self.turns.get(self.next) {
            Some(Given::Piece(bytes)) => rest_of(bytes.as_slice(), self.at),
            _ => &[],
        }
    }

    /// Goes past so many bytes of the next turn.
    fn advance(&mut self, n: usize)
        requires { n ≤ length (piece_of self.old.turns) }
        ensures { self.new ≡ record self.old { turns = turns_after n self.old.turns } }
    {
        match self.turns.get(self.next) {
            Some(Given::Piece(bytes)) => {
                if n < bytes.len() - self.at {
                    self.at += n;
                    return;
                }
            }
            _ => {}
        }
        self.pass();
    }
}

impl ListLink {
    /// Gives what fits of the next turn, which is a piece. For want of memory nothing is changed.
    fn give(&mut self, buf: &mut [u8]) -> Result<usize, NoMemory>
        requires piece { front_of self.old.turns ≡ Front.Piece }
        requires room { 0 < length buf.old }
        ensures count { IfOk result (λ n. n ≡ min (length buf.old) (length (piece_of self.old.turns))) }
        ensures some { IfOk result (λ n. 1 ≤ n) }
        ensures bytes { IfOk result (λ n. take n buf.new ≡ take n (piece_of self.old.turns)) }
        ensures ok { IfOk result (λ n. self.new ≡ record self.old { turns = turns_after n self.old.turns; story = self.old.story ++ event.Got (take n buf.new) ∷ [] }) }
        ensures err { OnErr result (self.new ≡ self.old) }
    {
        let n = copy_front(self.piece(), buf);
        let copy = Bytes::of(self.alloc, &buf[..n])?;
        self.story.push(Event::Got(copy))?;
        self.advance(n);
        Ok(n)
    }
}

/// Copies as many bytes as fit into the front of the buffer.
fn copy_front(bytes: &[u8], buf: &mut [u8]) -> usize
    ensures count { result ≡ min (length buf.old) (length bytes.now) }
    ensures front { take result buf.new ≡ take result bytes.now }
{
    let n = bytes.len().min(buf.len());
    buf[..n].copy_from_slice(&bytes[..n]);
    n
}

impl Link for ListLink {
    ghost story = { λ l. Some l.story };

    ghost stands = { λ l. l.stands };

    ghost connect_faults = { λ l. l.connect_faults };

    ghost cuts = { λ l. l.cuts };

    ghost own_cuts = { λ l. l.own_cuts };

    ghost quiets = { λ l. l.quiets };

    ghost places = { λ l. l.places };

    fn connect(&mut self, host: &str, port: u16) -> Result<(), LinkFail>
        ensures story { Some self.new.story ≡ story_with (Some self.old.story) (connect_events self.old.stands self.new.stands result) }
        ensures stands { StandsAfterConnect self.old.stands self.new.stands result }
        ensures faults { self.new.connect_faults ≡ counted self.old.connect_faults (is_failed result) }
        ensures cuts { self.new.cuts ≡ counted self.old.cuts (connect_cuts self.old.stands self.new.stands result) }
        ensures own_cuts { self.new.own_cuts ≡ counted self.old.own_cuts (connect_cuts self.old.stands self.new.stands result) }
        ensures quiets { self.new.quiets ≡ self.old.quiets }
        ensures places { WentAfterConnect (record { host = host.now; port = port }) result self.old.places self.new.places }
        ensures turns { self.new.turns ≡ self.old.turns }
        ensures refused { is_failed result ≡ true → 0 < self.old.refused }
        ensures refuses { 0 < self.old.refused → IsOk result → ⊥ }
        ensures left { self.new.refused ≡ self.old.refused - (if is_failed result then 1 else 0) }
    {
        match self.go(host, port) {
            Ok(()) => {}
            Err(NoMemory) => return Err(LinkFail::NoMemory),
        }
        if self.stands {
            match self.leave() {
                Ok(()) => {}
                Err(NoMemory) => return Err(LinkFail::NoMemory),
            }
        }
        if self.refused > 0 {
            return match self.refuse() {
                Ok(()) => Err(LinkFail::Failed),
                Err(NoMemory) => Err(LinkFail::NoMemory),
            };
        }
        match self.join() {
            Ok(()) => Ok(()),
            Err(NoMemory) => Err(LinkFail::NoMemory),
        }
    }

    fn send(&mut self, frame: &[u8]) -> Result<(), LinkFail>
        ensures story { Some self.new.story ≡ story_with (Some self.old.story) (send_events frame.now result) }
        ensures standing { OnOk result (IsTrue self.old.stands) }
        ensures stands { self.new.stands ≡ (self.old.stands && not (is_failed result)) }
        ensures faults { self.new.connect_faults ≡ self.old.connect_faults }
        ensures cuts { self.new.cuts ≡ counted self.old.cuts (is_failed result) }
        ensures own_cuts { self.new.own_cuts ≡ self.old.own_cuts }
        ensures quiets { self.new.quiets ≡ self.old.quiets }
        ensures places { self.new.places ≡ self.old.places }
        ensures turns { self.new.turns ≡ self.old.turns }
        ensures refused { self.new.refused ≡ self.old.refused }
        ensures only { is_failed result ≡ true → self.old.stands ≡ false }
    {
        let copy = match Bytes::of(self.alloc, frame) {
            Ok(copy) => copy,
            Err(NoMemory) => return Err(LinkFail::NoMemory),
        };
        if self.stands {
            match self.take(copy) {
                Ok(()) => Ok(()),
                Err(NoMemory) => Err(LinkFail::NoMemory),
            }
        } else {
            match self.lose(copy) {
                Ok(()) => Err(LinkFail::Failed),
                Err(NoMemory) => Err(LinkFail::NoMemory),
            }
        }
    }

    fn receive(&mut self, buf: &mut [u8]) -> Got
        requires { 0 < length buf.old }
        ensures bytes { IfBytes result (λ n. (1 ≤ n) × (n ≤ length buf.old) × IsTrue self.old.stands) }
        ensures story { Some self.new.story ≡ story_with (Some self.old.story) (receive_events buf.new result) }
        ensures stands { self.new.stands ≡ (self.old.stands && not (is_closed result)) }
        ensures faults { self.new.connect_faults ≡ self.old.connect_faults }
        ensures cuts { self.new.cuts ≡ counted self.old.cuts (is_closed result) }
        ensures own_cuts { self.new.own_cuts ≡ self.old.own_cuts }
        ensures quiets { self.new.quiets ≡ counted self.old.quiets (is_quiet result) }
        ensures places { self.new.places ≡ self.old.places }
        ensures refused { self.new.refused ≡ self.old.refused }
        ensures given { GivesNext self.old self.new (length buf.old) buf.new result }
    {
        if !self.stands {
            return match self.end() {
                Ok(()) => Got::Closed,
                Err(NoMemory) => Got::NoMemory,
            };
        }
        match self.front() {
            Front::Piece => match self.give(buf) {
                Ok(n) => Got::Bytes(n),
                Err(NoMemory) => Got::NoMemory,
            },
            Front::Quiet => match self.wait() {
                Ok(()) => {
                    self.pass();
                    Got::Quiet
                }
                Err(NoMemory) => Got::NoMemory,
            },
            Front::Closed => match self.end() {
                Ok(()) => {
                    self.pass();
                    Got::Closed
                }
                Err(NoMemory) => Got::NoMemory,
            },
        }
    }

    fn mark(&mut self, mark: &Mark) -> Result<(), NoMemory>
        ensures ok { OnOk result (self.new ≡ record self.old { story = self.old.story ++ event.Marked mark.now ∷ [] }) }
        ensures err { OnErr result (self.new ≡ self.old) }
    {
        let copy = mark.copied(self.alloc)?;
        self.story.push(Event::Marked(copy))
    }
}

/// The bytes from `at` on.
fn rest_of(bytes: &[u8], at: usize) -> &[u8]
    requires { at ≤ length bytes.now }
    ensures { result.now ≡ drop at bytes.now }
{
    &bytes[at..]
}
