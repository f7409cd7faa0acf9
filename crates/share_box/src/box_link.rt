//! A link with a share behind it.

ghost use Rattle.std.specs.Prelude.{◌≡◌, ◌≤◌, ◌<◌, ◌&&◌, ◌||◌, [], true, false, not, Some, IfOk, OnOk, OnErr, IsTrue, length};
ghost use Rattle.smb_link.specs.declared.faults.Got.TheVariants as got;
ghost use Rattle.smb_link.specs.Count.{counted};
ghost use Rattle.smb_link.specs.Once.{WentAfterConnect};
ghost use Rattle.smb_link.specs.Story.{story_with, is_failed, connect_cuts, StandsAfterConnect, Gains, GainsByConnect, send_events, receive_events, mark_events, is_closed, is_quiet, IfBytes};
ghost use Rattle.fs_plain.specs.Honest.{IsHonest};
ghost use Rattle.share_box.specs.Calls.{fresh_box, turns_in, ended, marked, Connects, Sends, Gives, Receives, is_want, is_want_of_bytes, as_link, as_got, Goes, GoesOn, GoesToConnect, GoesToJoin, Tries, Takes, left};
ghost use Rattle.share_box.specs.Truth.{Keeps};
ghost use Rattle.share_box.specs.Turns.{is_possible, is_cut};

use crate::schedule::{Schedule, Turn};
use crate::state::{State, accept, end, give, join, lose, note, refuse, wait};
use crate::turns::{do_turn, next_turn, turns_at_connect};
use crate::waiting::{TurnsToCome, Waiting};
use share_state::Share;
use smb_base::NoMemory;
use smb_link::{EventList, Got, Link, LinkFail, Mark, PlaceList};
use std::alloc::Global;
use std::marker::Model;

/// A link in memory, behind which a share takes turns. It tells its story, which is one that an honest share tells.
///
/// Once a call answered `NoMemory`, each later call answers so and changes nothing.
#[derive(Drop)]
pub struct BoxLink {
    alloc: Global,
    state: State,
    own_cuts: u64,
    places: PlaceList,
}

impl Model for BoxLink {
    ghost use Rattle.share_box.specs.Calls.{BoxSeen};
    ghost use Rattle.share_box.specs.Truth.{IsFaithful};

    ghost Value = { BoxSeen };

    ghost view = { λ b. record { state = b.state; own_cuts = b.own_cuts; places = b.places } };

    ghost invariant = { λ b. IsFaithful b.state };
}

impl BoxLink {
    /// A link to a share that has the root alone, with room for so many bytes; with `fold`, names are equal that differ in `a` to `z`
    /// against `A` to `Z` alone. Each reply grants these credits. No connection stands yet. It fails only for want of memory.
    pub fn new(
        alloc: Global,
        room: u64,
        fold: bool,
        credits: u16,
        schedule: Schedule,
    ) -> Result<BoxLink, NoMemory>
        ensures { IfOk result (λ b. b ≡ record { state = fresh_box room fold credits (turns_in schedule); own_cuts = 0; places = [] }) }
    {
        let Schedule::List(turns) = schedule;
        let share = Share::new(alloc, room, fold)?;
        Ok(BoxLink {
            alloc,
            state: State {
                room,
                fold,
                share,
                waiting: Waiting::new(alloc),
                turns: TurnsToCome::of(turns),
                credits,
                story: EventList::new(alloc),
                dead: false,
                connect_faults: 0,
                cuts: 0,
                quiets: 0,
            },
            own_cuts: 0,
            places: PlaceList::new(alloc),
        })
    }

    /// Lends the story so far. It is one that an honest share with this room and this folding of names tells.
    pub fn story(&self) -> &EventList
        ensures exact { result.now ≡ self.now.state.story }
        ensures honest { IsHonest self.now.state.room self.now.state.fold self.now.state.story }
    {
        &self.state.story
    }
}

// Ends the connection that stands.
fn leave(alloc: Global, b: &mut State) -> Result<(), NoMemory>
    ensures ok { OnOk result (b.new ≡ left b.old) }
    ensures err { OnErr result (GoesOn b.old b.new) }
    ensures keeps { Keeps result b.old b.new }
{
    if b.share.connected {
        return end(alloc, b);
    }
    Ok(())
}

// Takes the turns of a connect, and then joins or is refused.
fn try_join(alloc: Global, b: &mut State) -> Result<bool, NoMemory>
    requires { b.old.share.connected ≡ false }
    ensures does { Tries b.old b.new (as_link result) }
    ensures goes { GoesToJoin (as_link result) b.old b.new }
    ensures keeps { Keeps result b.old b.new }
{
    if turns_at_connect(alloc, b)? {
        refuse(b)?;
        return Ok(false);
    }
    join(alloc, b)?;
    Ok(true)
}

// A connect, while memory lasts.
fn connects(alloc: Global, b: &mut State) -> Result<bool, NoMemory>
    ensures does { Connects b.old b.new (as_link result) }
    ensures goes { GoesToConnect (as_link result) b.old b.new }
    ensures keeps { Keeps result b.old b.new }
{
    match leave(alloc, b) {
        Ok(()) => try_join(alloc, b),
        Err(NoMemory) => Err(NoMemory),
    }
}

// A connect that tells its place first, while memory lasts.
fn goes(
    alloc: Global,
    b: &mut State,
    places: &mut PlaceList,
    host: &str,
    port: u16,
) -> Result<bool, NoMemory>
    ensures does { Connects b.old b.new (as_link result) }
    ensures goes { GoesToConnect (as_link result) b.old b.new }
    ensures keeps { Keeps result b.old b.new }
    ensures places { WentAfterConnect (record { host = host.now; port = port }) (as_link result) places.old places.new }
{
    match places.go(alloc, host, port) {
        Ok(()) => connects(alloc, b),
        Err(NoMemory) => Err(NoMemory),
    }
}

// Whether a connect with this answer ended the connection that stood.
fn is_own_cut(stood: bool, stands: bool, done: &Result<bool, NoMemory>) -> bool
    ensures { result ≡ connect_cuts stood stands (as_link done.now) }
{
    match done {
        Ok(_) => stood,
        Err(NoMemory) => stood && !stands,
    }
}

// A count of what happens so.
fn count(so_far: u64, so: bool) -> u64
    ensures { result ≡ counted so_far so }
{
    if so { so_far.saturating_add(1) } else { so_far }
}

// A send, while memory lasts.
fn sends(alloc: Global, b: &mut State, frame: &[u8]) -> Result<bool, NoMemory>
    ensures does { Sends frame.now b.old b.new (as_link result) }
    ensures goes { Goes (send_events frame.now (as_link result)) (is_failed (as_link result)) false b.old b.new }
    ensures keeps { Keeps result b.old b.new }
{
    if b.share.connected {
        accept(alloc, b, frame)?;
        return Ok(true);
    }
    lose(alloc, b, frame)?;
    Ok(false)
}

// Gives bytes, where some wait, or else waits in vain.
fn gives(alloc: Global, b: &mut State, buf: &mut [u8]) -> Result<Got, NoMemory>
    requires { 0 < length buf.old }
    ensures plain { IfOk result (λ g. is_want_of_bytes g ≡ false) }
    ensures does { Gives (length buf.old) buf.new b.old b.new (as_got result) }
    ensures goes { Goes (receive_events buf.new (as_got result)) (is_closed (as_got result)) (is_quiet (as_got result)) b.old b.new }
    ensures keeps { Keeps result b.old b.new }
{
    if b.waiting.is_empty() {
        wait(b)?;
        return Ok(Got::Quiet);
    }
    Ok(Got::Bytes(give(alloc, b, buf)?))
}

// The end of a connection that a receive finds.
fn closes(alloc: Global, b: &mut State) -> Result<Got, NoMemory>
    ensures closed { IfOk result (λ g. g ≡ got.Closed) }
    ensures ok { OnOk result (b.new ≡ ended [] b.old) }
    ensures err { OnErr result (GoesOn b.old b.new) }
    ensures keeps { Keeps result b.old b.new }
{
    end(alloc, b)?;
    Ok(Got::Closed)
}

// A receive that takes this turn.
fn takes(alloc: Global, b: &mut State, turn: Turn, buf: &mut [u8]) -> Result<Got, NoMemory>
    requires room { 0 < length buf.old }
    requires possible { is_possible b.old.share turn ≡ true }
    ensures plain { IfOk result (λ g. is_want_of_bytes g ≡ false) }
    ensures does { Takes turn (length buf.old) buf.new b.old b.new (as_got result) }
    ensures goes { Goes (receive_events buf.new (as_got result)) (is_closed (as_got result)) (is_quiet (as_got result)) b.old b.new }
    ensures keeps { Keeps result b.old b.new }
{
    if is_cut(&turn) {
        return closes(alloc, b);
    }
    do_turn(alloc, b, turn)?;
    gives(alloc, b, buf)
}

fn is_cut(turn: &Turn) -> bool
    ensures { result ≡ is_cut turn.now }
{
    matches!(turn, Turn::Cut)
}

// A receive where a connection stands.
fn reads(alloc: Global, b: &mut State, buf: &mut [u8]) -> Result<Got, NoMemory>
    requires room { 0 < length buf.old }
    requires stands { b.old.share.connected ≡ true }
    ensures plain { IfOk result (λ g. is_want_of_bytes g ≡ false) }
    ensures does { Receives (length buf.old) buf.new b.old b.new (as_got result) }
    ensures goes { Goes (receive_events buf.new (as_got result)) (is_closed (as_got result)) (is_quiet (as_got result)) b.old b.new }
    ensures keeps { Keeps result b.old b.new }
{
    if !b.waiting.is_empty() {
        return gives(alloc, b, buf);
    }
    let turn = next_turn(alloc, b)?;
    takes(alloc, b, turn, buf)
}

// A receive, while memory lasts.
fn receives(alloc: Global, b: &mut State, buf: &mut [u8]) -> Result<Got, NoMemory>
    requires { 0 < length buf.old }
    ensures plain { IfOk result (λ g. is_want_of_bytes g ≡ false) }
    ensures does { Receives (length buf.old) buf.new b.old b.new (as_got result) }
    ensures goes { Goes (receive_events buf.new (as_got result)) (is_closed (as_got result)) (is_quiet (as_got result)) b.old b.new }
    ensures keeps { Keeps result b.old b.new }
{
    if b.share.connected {
        return reads(alloc, b, buf);
    }
    closes(alloc, b)
}

impl Link for BoxLink {
    ghost story = { λ b. Some b.state.story };

    ghost stands = { λ b. b.state.share.connected };

    ghost connect_faults = { λ b. b.state.connect_faults };

    ghost cuts = { λ b. b.state.cuts };

    ghost own_cuts = { λ b. b.own_cuts };

    ghost quiets = { λ b. b.state.quiets };

    ghost places = { λ b. b.places };

    fn connect(&mut self, host: &str, port: u16) -> Result<(), LinkFail>
        ensures story { GainsByConnect self.old.state.share.connected self.new.state.share.connected result (Some self.old.state.story) (Some self.new.state.story) }
        ensures stands { StandsAfterConnect self.old.state.share.connected self.new.state.share.connected result }
        ensures faults { self.new.state.connect_faults ≡ counted self.old.state.connect_faults (is_failed result) }
        ensures cuts { self.new.state.cuts ≡ counted self.old.state.cuts (connect_cuts self.old.state.share.connected self.new.state.share.connected result) }
        ensures own_cuts { self.new.own_cuts ≡ counted self.old.own_cuts (connect_cuts self.old.state.share.connected self.new.state.share.connected result) }
        ensures quiets { self.new.state.quiets ≡ self.old.state.quiets }
        ensures places { WentAfterConnect (record { host = host.now; port = port }) result self.old.places self.new.places }
        ensures room { self.new.state.room ≡ self.old.state.room }
        ensures fold { self.new.state.fold ≡ self.old.state.fold }
        ensures does { self.old.state.dead ≡ false → Connects self.old.state self.new.state result }
        ensures dies { self.new.state.dead ≡ (self.old.state.dead || is_want result) }
        ensures dead { self.old.state.dead ≡ true → (is_want result ≡ true) × (self.new ≡ self.old) }
    {
        if self.state.dead {
            return Err(LinkFail::NoMemory);
        }
        let stood = self.state.share.connected;
        let done = goes(self.alloc, &mut self.state, &mut self.places, host, port);
        let cut = is_own_cut(stood, self.state.share.connected, &done);
        self.own_cuts = count(self.own_cuts, cut);
        match done {
            Ok(true) => Ok(()),
            Ok(false) => Err(LinkFail::Failed),
            Err(NoMemory) => {
                self.state.dead = true;
                Err(LinkFail::NoMemory)
            }
        }
    }

    fn send(&mut self, frame: &[u8]) -> Result<(), LinkFail>
        ensures story { Gains (send_events frame.now result) (Some self.old.state.story) (Some self.new.state.story) }
        ensures standing { OnOk result (IsTrue self.old.state.share.connected) }
        ensures stands { self.new.state.share.connected ≡ (self.old.state.share.connected && not (is_failed result)) }
        ensures faults { self.new.state.connect_faults ≡ self.old.state.connect_faults }
        ensures cuts { self.new.state.cuts ≡ counted self.old.state.cuts (is_failed result) }
        ensures own_cuts { self.new.own_cuts ≡ self.old.own_cuts }
        ensures quiets { self.new.state.quiets ≡ self.old.state.quiets }
        ensures places { self.new.places ≡ self.old.places }
        ensures room { self.new.state.room ≡ self.old.state.room }
        ensures fold { self.new.state.fold ≡ self.old.state.fold }
        ensures does { self.old.state.dead ≡ false → Sends frame.now self.old.state self.new.state result }
        ensures dies { self.new.state.dead ≡ (self.old.state.dead || is_want result) }
        ensures dead { self.old.state.dead ≡ true → (is_want result ≡ true) × (self.new ≡ self.old) }
    {
        if self.state.dead {
            return Err(LinkFail::NoMemory);
        }
        match sends(self.alloc, &mut self.state, frame) {
            Ok(true) => Ok(()),
            Ok(false) => Err(LinkFail::Failed),
            Err(NoMemory) => {
                self.state.dead = true;
                Err(LinkFail::NoMemory)
            }
        }
    }

    fn receive(&mut self, buf: &mut [u8]) -> Got
        requires { 0 < length buf.old }
        ensures bytes { IfBytes result (λ n. (1 ≤ n) × (n ≤ length buf.old) × IsTrue self.old.state.share.connected) }
        ensures story { Gains (receive_events buf.new result) (Some self.old.state.story) (Some self.new.state.story) }
        ensures stands { self.new.state.share.connected ≡ (self.old.state.share.connected && not (is_closed result)) }
        ensures faults { self.new.state.connect_faults ≡ self.old.state.connect_faults }
        ensures cuts { self.new.state.cuts ≡ counted self.old.state.cuts (is_closed result) }
        ensures own_cuts { self.new.own_cuts ≡ self.old.own_cuts }
        ensures quiets { self.new.state.quiets ≡ counted self.old.state.quiets (is_quiet result) }
        ensures places { self.new.places ≡ self.old.places }
        ensures room { self.new.state.room ≡ self.old.state.room }
        ensures fold { self.new.state.fold ≡ self.old.state.fold }
        ensures does { self.old.state.dead ≡ false → Receives (length buf.old) buf.new self.old.state self.new.state result }
        ensures dies { self.new.state.dead ≡ (self.old.state.dead || is_want_of_bytes result) }
        ensures dead { self.old.state.dead ≡ true → (result ≡ got.NoMemory) × (self.new ≡ self.old) }
    {
        if self.state.dead {
            return Got::NoMemory;
        }
        match receives(self.alloc, &mut self.state, buf) {
            Ok(got) => got,
            Err(NoMemory) => {
                self.state.dead = true;
                Got::NoMemory
            }
        }
    }

    fn mark(&mut self, mark: &Mark) -> Result<(), NoMemory>
        ensures story { Gains (mark_events mark.now result) (Some self.old.state.story) (Some self.new.state.story) }
        ensures alone { Some self.new.state.story ≡ story_with (Some self.old.state.story) (mark_events mark.now result) }
        ensures stands { self.new.state.share.connected ≡ self.old.state.share.connected }
        ensures faults { self.new.state.connect_faults ≡ self.old.state.connect_faults }
        ensures cuts { self.new.state.cuts ≡ self.old.state.cuts }
        ensures own_cuts { self.new.own_cuts ≡ self.old.own_cuts }
        ensures quiets { self.new.state.quiets ≡ self.old.state.quiets }
        ensures places { self.new.places ≡ self.old.places }
        ensures room { self.new.state.room ≡ self.old.state.room }
        ensures fold { self.new.state.fold ≡ self.old.state.fold }
        ensures does { OnOk result ((self.old.state.dead ≡ false) × (self.new ≡ record self.old { state = marked mark.now self.old.state })) }
        ensures err { OnErr result (self.new ≡ record self.old { state = record self.old.state { dead = true } }) }
    {
        if self.state.dead {
            return Err(NoMemory);
        }
        match note(self.alloc, &mut self.state, mark) {
            Ok(()) => Ok(()),
            Err(NoMemory) => {
                self.state.dead = true;
                Err(NoMemory)
            }
        }
    }
}
