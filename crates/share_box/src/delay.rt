//! Requests that are put off, each with an interim reply (MS-SMB2 3.3.4.2).

ghost use Rattle.std.specs.Prelude.{◌≡◌, ◌++◌, ◌∷◌, [], IfOk, OnOk, OnErr, map, option_map};
ghost use Rattle.smb_link.specs.declared.event.Event.TheVariants as event;
ghost use Rattle.share_state.specs.Sent.{sent_with, put_off};
ghost use Rattle.share_box.specs.Calls.{GoesOn};
ghost use Rattle.share_box.specs.Paid.{PaysInterim};
ghost use Rattle.share_box.specs.Truth.{Keeps};
ghost use Rattle.share_box.specs.Turns.{interim_to, delayed, all_delayed};

use crate::answers::interim;
use crate::order::find;
use crate::state::State;
use share_state::Sent;
use smb_base::{Bytes, Mid, NoMemory};
use smb_link::Event;
use std::alloc::Global;

// The interim reply to the request with this id, unless it had one already.
fn interim_to(alloc: Global, sent: &[Sent], mid: Mid) -> Result<Option<Bytes>, NoMemory>
    ensures exact { IfOk result (λ f. f ≡ interim_to (sent_with mid sent.now)) }
    ensures pays { IfOk result (λ f. PaysInterim (sent_with mid sent.now)) }
{
    match find(sent, mid) {
        Some(one) => {
            if one.pended {
                Ok(None)
            } else {
                Ok(Some(interim(alloc, one.message.as_slice())?))
            }
        }
        None => Ok(None),
    }
}

// Has an interim reply wait, and tells that the request with this id was put off.
fn tell(b: &mut State, mid: Mid, frame: &[u8]) -> Result<(), NoMemory>
    ensures ok { OnOk result (b.new ≡ record b.old { share = record b.old.share { sent = map (put_off mid) b.old.share.sent }; story = b.old.story ++ event.Pend mid ∷ []; waiting = b.old.waiting ++ frame.now }) }
    ensures err { OnErr result (b.new ≡ record b.old { waiting = b.new.waiting }) }
{
    b.waiting.add(frame)?;
    b.story.push(Event::Pend(mid))?;
    b.share.sent.put_off(mid);
    Ok(())
}

// Puts the request with this id off, unless it was put off before.
fn put_off(alloc: Global, b: &mut State, mid: Mid) -> Result<(), NoMemory>
    ensures ok { OnOk result (b.new ≡ delayed mid b.old) }
    ensures goes { GoesOn b.old b.new }
    ensures keeps { Keeps result b.old b.new }
{
    match interim_to(alloc, b.share.sent.as_slice(), mid)? {
        Some(frame) => tell(b, mid, frame.as_slice()),
        None => Ok(()),
    }
}

// Puts the requests with these ids off, one after the other.
pub(crate) fn put_all_off(alloc: Global, b: &mut State, mids: &[Mid]) -> Result<(), NoMemory>
    ensures ok { OnOk result (b.new ≡ all_delayed mids.now b.old) }
    ensures goes { GoesOn b.old b.new }
    ensures keeps { Keeps result b.old b.new }
{
    for mid in mids {
        put_off(alloc, b, *mid)?;
    }
    Ok(())
}
