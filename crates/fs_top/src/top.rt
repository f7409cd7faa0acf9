//! The top call.

ghost use Rattle.std.specs.Prelude.{◌≡◌, ◌≢◌, ◌⊎◌, ℕ, List, [], Some, true, false, map, option_map, string_bytes};
ghost use Rattle.smb_link.specs.declared.event.Event.{Event};
ghost use Rattle.fs_top.specs.declared.ping.ending.Ending.{Ending};
ghost use Rattle.smb_link.specs.Came.{seen_by, Came};
ghost use Rattle.fs_top.specs.Ping.Counts.{ByCounts};
ghost use Rattle.fs_top.specs.Printing.{held_by};
ghost use Rattle.fs_top.specs.Ping.Run.{Ran, Causes, Printed};
ghost use Rattle.fs_top.specs.declared.run_end.End.{End};
ghost use Rattle.fs_top.specs.RunEndings.{PrintedLine, PrintedEnd};
ghost use Rattle.fs_top.specs.Words.{IsPing, IsRun, AreRun};
ghost use Rattle.smb_link.specs.Once.{WentOnlyTo};
ghost use Rattle.fs_ahead.specs.Script.{coming_of};
ghost use Rattle.fs_top.specs.Connects.{CutsOnce};
ghost use Rattle.fs_top.specs.Run.{run_options, tries_of, core_of, RunIs};
ghost use Rattle.fs_top.specs.Headline.{PlainAnswers, CleanEnds, SendsFew};
ghost use Rattle.fs_top.specs.Completeness.{Completes};

use crate::fault_lines::MEMORY_LINE;
use crate::ping::ending::Ending;
use crate::ping::ping;
use crate::print::print_line;
use crate::run::run_script;
use crate::run_end::End;
use crate::words::{read_ping, read_run};
use smb_link::{Clock, Link, Sink, Source};
use std::alloc::Global;

/// Runs the program on its words, prints what comes of it, and answers the exit status.
///
/// The words `ping HOST PORT` are one connect, one NEGOTIATE request that offers SMB 2.1 with the seed as client id (MS-SMB2 2.2.3), and
/// the first whole frame that comes; one line is printed, and the source and the clock are not used.
///
/// The words `run HOST PORT SHARE` are a run of the script that the source gives, over that share: each line `0 stat PATH` is begun,
/// answered and printed as `N ANSWER`, with its line's number; empty lines and comments are passed over. Up to four connects are tried;
/// the session is an anonymous one.
///
/// # Statuses
///
/// 0: the server took the dialect; the script was read to its end, each line was answered, and the share was left. 1: the words are
/// others, and nothing was done. 2: that line of the script is refused; the lines before it were answered, and the share was left. 3:
/// memory ran out. 4: the server took another dialect, wants signatures, or refused the session or the share. 5: that frame is wrong. 6:
/// no connection could be made, or it was lost, or silent for 300 receives in a row. 7: the source failed; the lines before were
/// answered, and the share was left. 8: the sink refused what was to be printed; what it took is a front of it. 10: too many frames came.
pub fn smbfs<S: Source, K: Sink, L: Link, C: Clock>(
    alloc: Global,
    words: &Vec<String>,
    input: &mut S,
    out: &mut K,
    link: &mut L,
    clock: &mut C,
    seed: [u8; 16],
) -> u8
    ensures ran { (AreRun (map string_bytes words.now.items) → ⊥) → Ran (map string_bytes words.now.items) (L.stands link.old) seed
        (seen_by L.story L.connect_faults L.cuts L.quiets link.old) (seen_by L.story L.connect_faults L.cuts L.quiets link.new)
        (held_by K.written K.faults K.stalls out.old) (held_by K.written K.faults K.stalls out.new) result }
    ensures counts { (AreRun (map string_bytes words.now.items) → ⊥) → ByCounts (L.stands link.old)
        (seen_by L.story L.connect_faults L.cuts L.quiets link.old) (seen_by L.story L.connect_faults L.cuts L.quiets link.new) result }
    ensures never { (AreRun (map string_bytes words.now.items) → ⊥) → (result ≢ 2) × (result ≢ 7) × (result ≢ 10) }
    ensures source { (AreRun (map string_bytes words.now.items) → ⊥) → input.new ≡ input.old }
    ensures clock { (AreRun (map string_bytes words.now.items) → ⊥) → clock.new ≡ clock.old }

    // A ping connects to its host and port alone, and other words to nothing. No connection is ended by the program itself but one that
    // stood before.
    ensures ping_places { (host : List ℕ) (port : ℕ) → IsPing (map string_bytes words.now.items) host port → WentOnlyTo (record { host = host; port = port }) (L.places link.old) (L.places link.new) }
    ensures nowhere { (AreRun (map string_bytes words.now.items) → ⊥) → ((host : List ℕ) (port : ℕ) → IsPing (map string_bytes words.now.items) host port → ⊥) → L.places link.new ≡ L.places link.old }
    ensures own_cuts { CutsOnce (L.stands link.old) (L.own_cuts link.old) (L.own_cuts link.new) }

    // A run: its connects, and then turn after turn, each one input of the core, which the link, the script or the clock gave, and its
    // frames, marks and answers in order, which are what a client may do and no more; the calls are those of the script; what is printed; the
    // cause of the end, and the calls that are closed then; and the last line.
    ensures runs { (host : List ℕ) (port : ℕ) (share : List ℕ) → IsRun (map string_bytes words.now.items) host port share
        → RunIs (core_of seed host share) (tries_of run_options) run_options.patience (option_map coming_of (S.left input.old)) (S.faults input.old) (S.faults input.new)
        (C.told clock.old) (C.told clock.new) (L.stands link.old)
        (seen_by L.story L.connect_faults L.cuts L.quiets link.old) (seen_by L.story L.connect_faults L.cuts L.quiets link.new)
        (held_by K.written K.faults K.stalls out.old) (held_by K.written K.faults K.stalls out.new) result }

    // It connects to that host and port alone.
    ensures places { (host : List ℕ) (port : ℕ) (share : List ℕ) → IsRun (map string_bytes words.now.items) host port share
        → WentOnlyTo (record { host = host; port = port }) (L.places link.old) (L.places link.new) }

    // Every answer of a run is the plain client's: where the link tells its story from its beginning on, and an honest share tells one
    // like it, the plain client has the same answers, and so have the others.
    ensures plain { (host : List ℕ) (port : ℕ) (share : List ℕ) → IsRun (map string_bytes words.now.items) host port share
        → L.stands link.old ≡ false → L.story link.old ≡ Some [] → PlainAnswers (core_of seed host share).setting result (L.story link.new) }

    // And it leaves the share clean: at the statuses 0, 2 and 7 with the files and names that the plain client leaves, and no open of its
    // own.
    ensures clean { (host : List ℕ) (port : ℕ) (share : List ℕ) → IsRun (map string_bytes words.now.items) host port share
        → L.stands link.old ≡ false → L.story link.old ≡ Some [] → CleanEnds (core_of seed host share).setting result (L.story link.new) }

    // No frame is sent in vain: a stat is one frame wherever the credits allow it.
    ensures thrift { (host : List ℕ) (port : ℕ) (share : List ℕ) → IsRun (map string_bytes words.now.items) host port share
        → L.stands link.old ≡ false → L.story link.old ≡ Some [] → SendsFew (core_of seed host share).setting (L.story link.new) }

    // A valid script is carried out, on an honest share and a connection that lets it: the status is 0, or 3 for want of memory.
    ensures completes { (host : List ℕ) (port : ℕ) (share : List ℕ) → IsRun (map string_bytes words.now.items) host port share
        → L.stands link.old ≡ false → L.story link.old ≡ Some []
        → Completes (core_of seed host share).setting run_options.patience (option_map coming_of (S.left input.old)) (S.faults input.old) (S.faults input.new)
        (held_by K.written K.faults K.stalls out.old) (held_by K.written K.faults K.stalls out.new) (L.story link.new) result }
{
    match read_run(words) {
        Some((host, port, share)) => {
            let end = run_script(alloc, input, out, link, clock, host, port, share, seed);
            close(alloc, out, &end)
        }
        None => run_ping(alloc, words, out, link, seed),
    }
}

/// Does one ping where the words say so, and prints what comes of it.
fn run_ping<K: Sink, L: Link>(
    alloc: Global,
    words: &Vec<String>,
    out: &mut K,
    link: &mut L,
    seed: [u8; 16],
) -> u8
    ensures ran { Ran (map string_bytes words.now.items) (L.stands link.old) seed
        (seen_by L.story L.connect_faults L.cuts L.quiets link.old) (seen_by L.story L.connect_faults L.cuts L.quiets link.new)
        (held_by K.written K.faults K.stalls out.old) (held_by K.written K.faults K.stalls out.new) result }
    ensures counts { ByCounts (L.stands link.old)
        (seen_by L.story L.connect_faults L.cuts L.quiets link.old) (seen_by L.story L.connect_faults L.cuts L.quiets link.new) result }
    ensures never { (result ≢ 2) × (result ≢ 7) × (result ≢ 10) }
    ensures places { (host : List ℕ) (port : ℕ) → IsPing (map string_bytes words.now.items) host port → WentOnlyTo (record { host = host; port = port }) (L.places link.old) (L.places link.new) }
    ensures nowhere { ((host : List ℕ) (port : ℕ) → IsPing (map string_bytes words.now.items) host port → ⊥) → L.places link.new ≡ L.places link.old }
    ensures own_cuts { CutsOnce (L.stands link.old) (L.own_cuts link.old) (L.own_cuts link.new) }
{
    let ending = run(alloc, words, link, seed);
    finish(alloc, out, &ending)
}

/// Prints the last line of a run of a script, and answers its status; 8 where the sink refuses the line. Where it refused what was printed
/// before, nothing more is printed.
fn close<K: Sink>(alloc: Global, out: &mut K, end: &End) -> u8
    ensures printed { PrintedEnd end.now (held_by K.written K.faults K.stalls out.old) (held_by K.written K.faults K.stalls out.new) result }
{
    match end {
        End::Sink => 8,
        _ => close_with(alloc, out, end),
    }
}

/// The same where the sink refused nothing before.
fn close_with<K: Sink>(alloc: Global, out: &mut K, end: &End) -> u8
    ensures printed { PrintedLine end.now (held_by K.written K.faults K.stalls out.old) (held_by K.written K.faults K.stalls out.new) result
        ⊎ PrintedLine End.Memory (held_by K.written K.faults K.stalls out.old) (held_by K.written K.faults K.stalls out.new) result }
{
    match end.text(alloc) {
        Ok(text) => print_line(out, text.as_str(), end.status()),
        Err(_) => print_line(out, MEMORY_LINE, 3),
    }
}

/// Does what the words say.
fn run<L: Link>(alloc: Global, words: &Vec<String>, link: &mut L, seed: [u8; 16]) -> Ending
    ensures ends { (events : List Event)
        × Came events (seen_by L.story L.connect_faults L.cuts L.quiets link.old) (seen_by L.story L.connect_faults L.cuts L.quiets link.new)
        × ((result ≡ Ending.Memory) ⊎ Causes (map string_bytes words.now.items) (L.stands link.old) seed events result) }
    ensures places { (host : List ℕ) (port : ℕ) → IsPing (map string_bytes words.now.items) host port → WentOnlyTo (record { host = host; port = port }) (L.places link.old) (L.places link.new) }
    ensures nowhere { ((host : List ℕ) (port : ℕ) → IsPing (map string_bytes words.now.items) host port → ⊥) → L.places link.new ≡ L.places link.old }
    ensures own_cuts { CutsOnce (L.stands link.old) (L.own_cuts link.old) (L.own_cuts link.new) }
{
    match read_ping(words) {
        Some((host, port)) => ping(alloc, link, host, port, seed),
        None => Ending::Words,
    }
}

/// Prints the line of an ending, and answers its status; 8 where the sink refuses the line.
fn finish<K: Sink>(alloc: Global, out: &mut K, ending: &Ending) -> u8
    ensures { Printed ending.now (held_by K.written K.faults K.stalls out.old) (held_by K.written K.faults K.stalls out.new) result
        ⊎ Printed Ending.Memory (held_by K.written K.faults K.stalls out.old) (held_by K.written K.faults K.stalls out.new) result }
{
    match ending.text(alloc) {
        Ok(text) => print_line(out, text.as_str(), ending.status()),
        Err(_) => print_line(out, MEMORY_LINE, 3),
    }
}
