//! The states of a mount.

ghost use Rattle.std.specs.Prelude.{◌≡◌, ◌≤◌, ◌∷◌, [], IfOk, IsOk, length};
ghost use Rattle.std.specs.List.{AllByRecursion};
ghost use Rattle.smb_head.specs.Header.{head_of};
ghost use Rattle.smb_mount.specs.Tokens.{negotiate_token, authenticate_token};
ghost use Rattle.smb_mount.specs.Requests.{negotiate, session_setup, tree_connect, tree_disconnect, logoff, unit_bytes, IsWritten, negotiate_fields, dialects, session_fields, tree_fields, no_fields};
ghost use Rattle.smb_mount.specs.Verdicts.{by_body, greeted, challenged, at_once, answered, challenged_again, joined, NegotiateEnds, SetUpEnds, SessionEnds, TreeEnds};

use crate::facts::{Facts, Server};
use crate::fault::MountFault;
use crate::replies::{head_in, is_guest, refusal, server_of, tree_of};
use crate::requests::{
    AUTHENTICATE_TOKEN, NEGOTIATE_TOKEN, logoff, negotiate, session_setup, tree_connect,
    tree_disconnect,
};
use smb_base::{NoMemory, Status, Units};
use smb_body_a::{
    NegotiateReply, SessionSetupReply, TreeConnectReply, read_negotiate_reply,
    read_session_setup_reply, read_tree_connect_reply,
};
use smb_field::BodyFault;
use smb_head::{Request, Route};
use std::alloc::Global;
use std::marker::Model;

/// The one dialect that is offered, SMB 2.1 (MS-SMB2 2.2.3).
const DIALECT: u16 = 0x0210;

/// Whether the server wants each message signed (MS-SMB2 2.2.4, SecurityMode).
const SIGNING_REQUIRED: u16 = 2;

/// The share type of a disk (MS-SMB2 2.2.10).
const DISK: u8 = 1;

/// A mount of which nothing is sent.
#[derive(Debug, Drop)]
pub struct New {
    guid: [u8; 16],
    path: Units,
    previous: u64,
}

impl Model for New {
    ghost use Rattle.std.specs.Prelude.{◌≤◌, length};
    ghost use Rattle.smb_mount.specs.Kept.{Start};

    ghost Value = { Start };

    ghost view = { λ a. record { guid = a.guid; path = a.path; previous = a.previous } };

    ghost invariant = { λ a. length a.path ≤ 32767 };
}

impl New {
    /// The mount of the share `path`, as `\\HOST\SHARE`, by the client `guid`. `previous` is the session that the new one takes the
    /// place of, 0 where there is none.
    pub fn new(guid: [u8; 16], path: Units, previous: u64) -> New
        requires { length path ≤ 32767 }
        ensures guid { result.guid ≡ guid }
        ensures path { result.path ≡ path }
        ensures previous { result.previous ≡ previous }
    {
        New {
            guid,
            path,
            previous,
        }
    }

    /// NEGOTIATE, which offers SMB 2.1 alone.
    ///
    /// # Errors
    ///
    /// Want of memory alone.
    pub fn request(&self, alloc: Global) -> Result<Request, NoMemory>
        ensures value { IfOk result (λ request. request ≡ negotiate self.now.guid) }
        ensures written { IfOk result (IsWritten 36 (negotiate_fields self.now.guid) dialects) }
    {
        negotiate(alloc, self.guid)
    }

    /// Takes the reply to NEGOTIATE, a whole message whose header reads.
    ///
    /// # Errors
    ///
    /// The first of these that stands: `Malformed`, `Dialect` (0 where the server refused), `SigningRequired`.
    pub fn reply(self, part: &[u8]) -> Result<Negotiated, MountFault>
        requires { IsOk (head_of part.now) }
        ensures { NegotiateEnds self (head_of part.now) part.now result }
    {
        if head_in(part).status != Status::SUCCESS {
            return Err(refusal(part, MountFault::Dialect(0)));
        }
        self.by_body(read_negotiate_reply(part))
    }

    // What the body decides.
    fn by_body(self, body: Result<NegotiateReply<'_>, BodyFault>) -> Result<Negotiated, MountFault>
        ensures { result ≡ by_body (greeted self) body.entry }
    {
        let reply = match body {
            Ok(reply) => reply,
            Err(fault) => return Err(MountFault::Malformed(fault)),
        };
        if reply.dialect != DIALECT {
            return Err(MountFault::Dialect(reply.dialect));
        }
        if reply.security_mode & SIGNING_REQUIRED == SIGNING_REQUIRED {
            return Err(MountFault::SigningRequired);
        }
        Ok(Negotiated {
            path: self.path,
            previous: self.previous,
            server: server_of(&reply),
        })
    }
}

/// A mount whose dialect is agreed.
#[derive(Debug, Drop)]
pub struct Negotiated {
    path: Units,
    previous: u64,
    server: Server,
}

impl Model for Negotiated {
    ghost use Rattle.std.specs.Prelude.{◌≤◌, length};
    ghost use Rattle.smb_mount.specs.Kept.{Greeted};

    ghost Value = { Greeted };

    ghost view = { λ a. record { path = a.path; previous = a.previous; server = a.server } };

    ghost invariant = { λ a. length a.path ≤ 32767 };
}

/// What the reply to the first SESSION_SETUP leads to.
#[derive(Debug, Drop)]
pub enum SetUp {
    /// The server wants one more message.
    Challenged(Challenged),
    /// The session stands at once.
    Authenticated(Authenticated),
}

impl Negotiated {
    /// The first SESSION_SETUP, in no session.
    ///
    /// # Errors
    ///
    /// Want of memory alone.
    pub fn request(&self, alloc: Global) -> Result<Request, NoMemory>
        ensures value { IfOk result (λ request.
            request ≡ session_setup self.now.server.caps 0 self.now.previous negotiate_token) }
        ensures written { IfOk result (IsWritten 25 (session_fields self.now.previous negotiate_token) negotiate_token) }
    {
        session_setup(alloc, self.server.caps, 0, self.previous, &NEGOTIATE_TOKEN)
    }

    /// Takes the reply to the first SESSION_SETUP, a whole message whose header reads.
    ///
    /// # Errors
    ///
    /// The first of these that stands: `Malformed`, `Session` with the status of a refusal, `NotGuest`.
    pub fn reply(self, part: &[u8]) -> Result<SetUp, MountFault>
        requires { IsOk (head_of part.now) }
        ensures { SetUpEnds self (head_of part.now) part.now result }
    {
        let head = head_in(part);
        if head.status == Status::MORE_PROCESSING_REQUIRED {
            return self.by_challenge(head.session, read_session_setup_reply(part));
        }
        if head.status == Status::SUCCESS {
            return self.by_last(head.session, read_session_setup_reply(part));
        }
        Err(refusal(part, MountFault::Session(head.status)))
    }

    // What the body of a challenge decides.
    fn by_challenge(
        self,
        session: u64,
        body: Result<SessionSetupReply<'_>, BodyFault>,
    ) -> Result<SetUp, MountFault>
        ensures { result ≡ by_body (challenged self session) body.entry }
    {
        match body {
            Ok(_) => Ok(SetUp::Challenged(Challenged {
                path: self.path,
                previous: self.previous,
                server: self.server,
                session,
            })),
            Err(fault) => Err(MountFault::Malformed(fault)),
        }
    }

    // What the body of a first session reply decides that is the last one.
    fn by_last(
        self,
        session: u64,
        body: Result<SessionSetupReply<'_>, BodyFault>,
    ) -> Result<SetUp, MountFault>
        ensures { result ≡ by_body (at_once self session) body.entry }
    {
        let reply = match body {
            Ok(reply) => reply,
            Err(fault) => return Err(MountFault::Malformed(fault)),
        };
        if !is_guest(reply.session_flags) {
            return Err(MountFault::NotGuest);
        }
        Ok(SetUp::Authenticated(Authenticated {
            path: self.path,
            server: self.server,
            session,
        }))
    }
}

/// A mount whose session was challenged.
#[derive(Debug, Drop)]
pub struct Challenged {
    path: Units,
    previous: u64,
    server: Server,
    session: u64,
}

impl Model for Challenged {
    ghost use Rattle.std.specs.Prelude.{◌≤◌, length};
    ghost use Rattle.smb_mount.specs.Kept.{Challenge};

    ghost Value = { Challenge };

    ghost view = { λ a. record { path = a.path; previous = a.previous; server = a.server; session = a.session } };

    ghost invariant = { λ a. length a.path ≤ 32767 };
}

impl Challenged {
    /// The second SESSION_SETUP, in the session of the challenge.
    ///
    /// # Errors
    ///
    /// Want of memory alone.
    pub fn request(&self, alloc: Global) -> Result<Request, NoMemory>
        ensures value { IfOk result (λ request.
            request ≡ session_setup self.now.server.caps self.now.session self.now.previous authenticate_token) }
        ensures written { IfOk result (IsWritten 25 (session_fields self.now.previous authenticate_token) authenticate_token) }
    {
        session_setup(
            alloc,
            self.server.caps,
            self.session,
            self.previous,
            &AUTHENTICATE_TOKEN,
        )
    }

    /// Takes the reply to the second SESSION_SETUP, a whole message whose header reads.
    ///
    /// # Errors
    ///
    /// The first of these that stands: `Malformed`, `Session` with the status of a refusal (a further challenge is one),
    /// `NotGuest`.
    pub fn reply(self, part: &[u8]) -> Result<Authenticated, MountFault>
        requires { IsOk (head_of part.now) }
        ensures { SessionEnds self (head_of part.now) part.now result }
    {
        let status = head_in(part).status;
        if status == Status::SUCCESS {
            return self.by_body(read_session_setup_reply(part));
        }
        if status == Status::MORE_PROCESSING_REQUIRED {
            return challenged_again(status, read_session_setup_reply(part));
        }
        Err(refusal(part, MountFault::Session(status)))
    }

    // What the body decides.
    fn by_body(
        self,
        body: Result<SessionSetupReply<'_>, BodyFault>,
    ) -> Result<Authenticated, MountFault>
        ensures { result ≡ by_body (answered self) body.entry }
    {
        let reply = match body {
            Ok(reply) => reply,
            Err(fault) => return Err(MountFault::Malformed(fault)),
        };
        if !is_guest(reply.session_flags) {
            return Err(MountFault::NotGuest);
        }
        Ok(Authenticated {
            path: self.path,
            server: self.server,
            session: self.session,
        })
    }
}

// What the body of a further challenge decides: it is a refusal.
fn challenged_again(
    status: Status,
    body: Result<SessionSetupReply<'_>, BodyFault>,
) -> Result<Authenticated, MountFault>
    ensures { result ≡ by_body (challenged_again status) body.entry }
{
    match body {
        Ok(_) => Err(MountFault::Session(status)),
        Err(fault) => Err(MountFault::Malformed(fault)),
    }
}

/// A mount whose session stands.
#[derive(Debug, Drop)]
pub struct Authenticated {
    path: Units,
    server: Server,
    session: u64,
}

impl Model for Authenticated {
    ghost use Rattle.std.specs.Prelude.{◌≤◌, length};
    ghost use Rattle.smb_mount.specs.Kept.{Session};

    ghost Value = { Session };

    ghost view = { λ a. record { path = a.path; server = a.server; session = a.session } };

    ghost invariant = { λ a. length a.path ≤ 32767 };
}

impl Authenticated {
    /// TREE_CONNECT to the share.
    ///
    /// # Errors
    ///
    /// Want of memory alone.
    pub fn request(&self, alloc: Global) -> Result<Request, NoMemory>
        ensures value { IfOk result (λ request.
            request ≡ tree_connect self.now.server.caps self.now.session self.now.path) }
        ensures written { IfOk result (IsWritten 9 (tree_fields (unit_bytes self.now.path)) (unit_bytes self.now.path)) }
    {
        tree_connect(alloc, self.server.caps, self.session, self.path.as_slice())
    }

    /// Takes the reply to TREE_CONNECT, a whole message whose header reads.
    ///
    /// # Errors
    ///
    /// The first of these that stands: `Malformed`, `Tree` with the status of a refusal, `NotDisk` with another share type.
    pub fn reply(self, part: &[u8]) -> Result<Mounted, MountFault>
        requires { IsOk (head_of part.now) }
        ensures { TreeEnds self (head_of part.now) part.now result }
    {
        let head = head_in(part);
        if head.status != Status::SUCCESS {
            return Err(refusal(part, MountFault::Tree(head.status)));
        }
        self.by_body(head.route, read_tree_connect_reply(part))
    }

    // What the body decides.
    fn by_body(
        self,
        route: Route,
        body: Result<TreeConnectReply, BodyFault>,
    ) -> Result<Mounted, MountFault>
        ensures { result ≡ by_body (joined self route) body }
    {
        let reply = match body {
            Ok(reply) => reply,
            Err(fault) => return Err(MountFault::Malformed(fault)),
        };
        if reply.share_type != DISK {
            return Err(MountFault::NotDisk(reply.share_type));
        }
        let server = self.server;
        let guid = server.guid;
        Ok(Mounted {
            facts: Facts {
                session: self.session,
                tree: tree_of(route),
                caps: server.caps,
                max_transact: server.max_transact,
                max_read: server.max_read,
                max_write: server.max_write,
                guid,
            },
        })
    }
}

/// A mounted share.
#[derive(Debug, Drop)]
pub struct Mounted {
    facts: Facts,
}

impl Model for Mounted {
    ghost use Rattle.smb_mount.specs.declared.facts.Facts.{Facts};

    ghost Value = { Facts };

    ghost view = { λ a. a.facts };
}

impl Mounted {
    /// What is known of the mounted share.
    pub fn facts(&self) -> Facts
        ensures { result ≡ self.now }
    {
        self.facts
    }

    /// TREE_DISCONNECT and LOGOFF, which end the mount.
    ///
    /// # Errors
    ///
    /// Want of memory alone.
    pub fn leave(self, alloc: Global) -> Result<[Request; 2], NoMemory>
        ensures value { IfOk result (λ requests. requests ≡ tree_disconnect self ∷ logoff self ∷ []) }
        ensures written { IfOk result (AllByRecursion (IsWritten 4 no_fields [])) }
    {
        Ok([
            tree_disconnect(alloc, &self.facts)?,
            logoff(alloc, &self.facts)?,
        ])
    }
}
