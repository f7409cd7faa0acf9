//! The four sides of the outside. What an implementation cannot know is not told: it is `None` before and after each call.
//! Each count is the number of this object's calls that answered so, and stops at the greatest number of 64 bits.

ghost use Rattle.std.specs.Prelude.{◌≡◌, ℕ, ◌≤◌, ◌<◌, ◌&&◌, List, Option, IfOk, OnOk, IsTrue, Bool, is_err, not, length};
ghost use Rattle.smb_link.specs.declared.event.Event.{Event};
ghost use Rattle.smb_link.specs.declared.places.Place.{Place};
ghost use Rattle.smb_link.specs.Count.{counted};
ghost use Rattle.smb_link.specs.Flow.{left_after, GaveFirst, written_after, stalled};
ghost use Rattle.smb_link.specs.Once.{WentAfterConnect, told_reading};
ghost use Rattle.smb_link.specs.Story.{is_failed, connect_cuts, StandsAfterConnect, Gains, GainsByConnect, story_with, send_events, receive_events, mark_events, is_closed, is_quiet, IfBytes};

use crate::faults::{Failed, Got, LinkFail};
use crate::mark::Mark;
use smb_base::NoMemory;

/// Where bytes are read from.
pub trait Source {
    /// The bytes that are not yet read.
    ghost left: { Self → Option (List ℕ) };

    /// How many reads failed.
    ghost faults: { Self → ℕ };

    /// Reads bytes into the front of the buffer, and says how many. None into a buffer with room is the end of the input. A failed
    /// read takes nothing off.
    fn read(&mut self, buf: &mut [u8]) -> Result<usize, Failed>
        ensures count { IfOk result (λ n. n ≤ length buf.old) }
        ensures bytes { GaveFirst (left self.old) result buf.new }
        ensures left { left self.new ≡ left_after (left self.old) result }
        ensures faults { faults self.new ≡ counted (faults self.old) (is_err result) };
}

/// Where bytes are written to.
pub trait Sink {
    /// The bytes that it holds.
    ghost written: { Self → Option (List ℕ) };

    /// How many writes failed.
    ghost faults: { Self → ℕ };

    /// How many writes took nothing of a piece that has bytes.
    ghost stalls: { Self → ℕ };

    /// Writes bytes from the front of the piece, and says how many. A failed write adds nothing.
    fn write(&mut self, bytes: &[u8]) -> Result<usize, Failed>
        ensures count { IfOk result (λ n. n ≤ length bytes.now) }
        ensures written { written self.new ≡ written_after (written self.old) result bytes.now }
        ensures faults { faults self.new ≡ counted (faults self.old) (is_err result) }
        ensures stalls { stalls self.new ≡ counted (stalls self.old) (stalled result bytes.now) };
}

/// The time.
pub trait Clock {
    /// What it read so far, the oldest first. A reading that is the same as the one before is told once.
    ghost told: { Self → Option (List ℕ) };

    /// Milliseconds since some start. Nothing is promised of them but that they are what the clock tells.
    fn now(&mut self) -> u64
        ensures told { told self.new ≡ told_reading result (told self.old) };
}

/// A connection to a server, one at a time, and the story that it tells. Each call adds its own events to the story; before them the
/// share behind the connection may have gone on, which adds events of its own.
pub trait Link {
    /// What happened so far.
    ghost story: { Self → Option (List Event) };

    /// Whether a connection stands.
    ghost stands: { Self → Bool };

    /// How many connects failed.
    ghost connect_faults: { Self → ℕ };

    /// How many connections ended: by a failed send, by a receive that found it closed, or by a connect in its place.
    ghost cuts: { Self → ℕ };

    /// How many of these a connect made itself, since a connection stood.
    ghost own_cuts: { Self → ℕ };

    /// How many receives waited in vain.
    ghost quiets: { Self → ℕ };

    /// Where the connects went, the oldest first. A place that is the same as the one before is told once.
    ghost places: { Self → List Place };

    /// Makes a connection. One that stands is ended first. The place is told before it is tried.
    fn connect(&mut self, host: &str, port: u16) -> Result<(), LinkFail>
        ensures story { GainsByConnect (stands self.old) (stands self.new) result (story self.old) (story self.new) }
        ensures stands { StandsAfterConnect (stands self.old) (stands self.new) result }
        ensures faults { connect_faults self.new ≡ counted (connect_faults self.old) (is_failed result) }
        ensures cuts { cuts self.new ≡ counted (cuts self.old) (connect_cuts (stands self.old) (stands self.new) result) }
        ensures own_cuts { own_cuts self.new ≡ counted (own_cuts self.old) (connect_cuts (stands self.old) (stands self.new) result) }
        ensures quiets { quiets self.new ≡ quiets self.old }
        ensures places { WentAfterConnect (record { host = host.now; port = port }) result (places self.old) (places self.new) };

    /// Sends a whole frame, its four bytes of length included. After a failure there is no connection. Want of memory sends
    /// nothing.
    fn send(&mut self, frame: &[u8]) -> Result<(), LinkFail>
        ensures story { Gains (send_events frame.now result) (story self.old) (story self.new) }
        ensures standing { OnOk result (IsTrue (stands self.old)) }
        ensures stands { stands self.new ≡ (stands self.old && not (is_failed result)) }
        ensures faults { connect_faults self.new ≡ connect_faults self.old }
        ensures cuts { cuts self.new ≡ counted (cuts self.old) (is_failed result) }
        ensures own_cuts { own_cuts self.new ≡ own_cuts self.old }
        ensures quiets { quiets self.new ≡ quiets self.old }
        ensures places { places self.new ≡ places self.old };

    /// Receives bytes into the front of the buffer, which is not empty. After `Closed` there is no connection. Want of memory
    /// takes nothing.
    fn receive(&mut self, buf: &mut [u8]) -> Got
        requires { 0 < length buf.old }
        ensures bytes { IfBytes result (λ n. (1 ≤ n) × (n ≤ length buf.old) × IsTrue (stands self.old)) }
        ensures story { Gains (receive_events buf.new result) (story self.old) (story self.new) }
        ensures stands { stands self.new ≡ (stands self.old && not (is_closed result)) }
        ensures faults { connect_faults self.new ≡ connect_faults self.old }
        ensures cuts { cuts self.new ≡ counted (cuts self.old) (is_closed result) }
        ensures own_cuts { own_cuts self.new ≡ own_cuts self.old }
        ensures quiets { quiets self.new ≡ counted (quiets self.old) (is_quiet result) }
        ensures places { places self.new ≡ places self.old };

    /// Puts a mark into the story. It changes nothing else, and for want of memory adds none.
    fn mark(&mut self, mark: &Mark) -> Result<(), NoMemory>
        ensures story { Gains (mark_events mark.now result) (story self.old) (story self.new) }
        ensures alone { story self.new ≡ story_with (story self.old) (mark_events mark.now result) }
        ensures stands { stands self.new ≡ stands self.old }
        ensures faults { connect_faults self.new ≡ connect_faults self.old }
        ensures cuts { cuts self.new ≡ cuts self.old }
        ensures own_cuts { own_cuts self.new ≡ own_cuts self.old }
        ensures quiets { quiets self.new ≡ quiets self.old }
        ensures places { places self.new ≡ places self.old };
}
