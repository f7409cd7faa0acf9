//! How far the connection has come.

ghost use Rattle.std.specs.Prelude.{◌≡◌, IfOk, IsOk};
ghost use Rattle.smb_head.specs.Header.{head_of};
ghost use Rattle.fs_core.specs.Event.{is_mounted};
ghost use Rattle.fs_core.specs.Asks.{facts_of, mount_asks, leave_asks};
ghost use Rattle.fs_core.specs.Written.{IfSomeWritten};
ghost use Rattle.fs_core.specs.Going.{Ends, greeting_of, left_of};

use crate::request::{logoff, tree_disconnect};
use smb_base::NoMemory;
use smb_head::Request;
use smb_mount::{Authenticated, Challenged, Facts, MountFault, Mounted, Negotiated, New, SetUp};
use std::alloc::Global;

/// How far the connection has come.
#[derive(Drop)]
pub(crate) enum Phase {
    /// A connection is to be made, and this mount begins on it.
    Apart(New),
    /// NEGOTIATE is asked.
    Greeting(New),
    /// The first SESSION_SETUP is asked.
    SettingUp(Negotiated),
    /// The second SESSION_SETUP is asked.
    Answering(Challenged),
    /// TREE_CONNECT is asked.
    Joining(Authenticated),
    /// The share is mounted.
    On(Mounted),
    /// TREE_DISCONNECT was asked.
    LeavingTree(Mounted),
    /// LOGOFF was asked, behind it.
    LeavingSession(Mounted),
    /// The share is left.
    Left,
    /// The connection was lost.
    Lost,
}

impl Phase {
    /// Whether the share was mounted.
    pub(crate) fn is_mounted(&self) -> bool
        ensures { result ≡ is_mounted self.now }
    {
        match self {
            Phase::On(_) => true,
            Phase::LeavingTree(_) => true,
            Phase::LeavingSession(_) => true,
            Phase::Left => true,
            _ => false,
        }
    }

    /// What is known of the mounted share, while a connection to it stands.
    pub(crate) fn facts(&self) -> Option<Facts>
        ensures { result ≡ facts_of self.now }
    {
        match self {
            Phase::On(mounted) => Some(mounted.facts()),
            Phase::LeavingTree(mounted) => Some(mounted.facts()),
            Phase::LeavingSession(mounted) => Some(mounted.facts()),
            _ => None,
        }
    }

    /// What the mount asks next; nothing where none is under way. It fails only for want of memory.
    pub(crate) fn mount_request(&self, alloc: Global) -> Result<Option<Request>, NoMemory>
        ensures value { IfOk result (λ r. r ≡ mount_asks self.now) }
        ensures written { IfOk result (IfSomeWritten self.now) }
    {
        match self {
            Phase::Greeting(mount) => Ok(Some(mount.request(alloc)?)),
            Phase::SettingUp(mount) => Ok(Some(mount.request(alloc)?)),
            Phase::Answering(mount) => Ok(Some(mount.request(alloc)?)),
            Phase::Joining(mount) => Ok(Some(mount.request(alloc)?)),
            _ => Ok(None),
        }
    }

    /// What leaves the share next: TREE_DISCONNECT once the end was said, then LOGOFF. It fails only for want of memory.
    pub(crate) fn leave_request(
        &self,
        alloc: Global,
        ended: bool,
    ) -> Result<Option<Request>, NoMemory>
        ensures { IfOk result (λ r. r ≡ leave_asks ended self.now) }
    {
        match self {
            Phase::On(mounted) => {
                if !ended {
                    return Ok(None);
                }
                Ok(Some(tree_disconnect(alloc, &mounted.facts())?))
            }
            Phase::LeavingTree(mounted) => Ok(Some(logoff(alloc, &mounted.facts())?)),
            _ => Ok(None),
        }
    }

    /// How far the connection has come once a request of its own has this reply, a whole message whose header reads. Where no mount is
    /// under way, a reply changes nothing.
    ///
    /// # Errors
    ///
    /// Why the share is not mounted.
    pub(crate) fn reply(self, part: &[u8]) -> Result<Phase, MountFault>
        requires { IsOk (head_of part.now) }
        ensures { Ends self part.now result }
    {
        match self {
            Phase::Greeting(mount) => Ok(Phase::SettingUp(mount.reply(part)?)),
            Phase::SettingUp(mount) => match mount.reply(part)? {
                SetUp::Challenged(next) => Ok(Phase::Answering(next)),
                SetUp::Authenticated(next) => Ok(Phase::Joining(next)),
            },
            Phase::Answering(mount) => Ok(Phase::Joining(mount.reply(part)?)),
            Phase::Joining(mount) => Ok(Phase::On(mount.reply(part)?)),
            other => Ok(other),
        }
    }

    /// How far it has come once a connection is made.
    pub(crate) fn greeting(self) -> Phase
        ensures { result ≡ greeting_of self }
    {
        match self {
            Phase::Apart(mount) => Phase::Greeting(mount),
            other => other,
        }
    }

    /// How far the connection has come once a request that leaves the share is sent, or was answered as the last one.
    pub(crate) fn left(self) -> Phase
        ensures { result ≡ left_of self }
    {
        match self {
            Phase::On(mounted) => Phase::LeavingTree(mounted),
            Phase::LeavingTree(mounted) => Phase::LeavingSession(mounted),
            Phase::LeavingSession(_) => Phase::Left,
            other => other,
        }
    }
}
