//! The ids that may be used.

ghost use Rattle.std.specs.Prelude.{◌≡◌, ◌≤◌, ◌<◌, ◌+◌, ◌++◌, ◌∷◌, [], length, IfSome, IfNone};
ghost use Rattle.std.specs.List.{All};
ghost use Rattle.smb_credit.specs.Window.{usable, least, granted_more, after_use, numbers};

use smb_base::Mid;
use std::marker::Model;

/// The id of a message that answers no request, as the notice that a lease is broken (MS-SMB2 2.2.1). It is never granted.
pub const NO_REQUEST: Mid = Mid(u64::MAX);

/// The ids of the messages of a connection. A contract sees which of them were granted and which were used. It takes no memory.
#[derive(Drop)]
pub struct Window {
    // The least id that was not used.
    next: u64,
    // The least one that was not granted.
    top: u64,
}

impl Model for Window {
    ghost use Rattle.std.specs.Prelude.{◌≤◌};
    ghost use Rattle.smb_credit.specs.Window.{Ids, up_to};

    ghost Value = { Ids };

    ghost view = { λ w. up_to w.next w.top };

    ghost invariant = { λ w. w.next ≤ w.top };
}

impl Window {
    /// The ids of a new connection: 0 may be used.
    pub fn new() -> Window
        ensures { result ≡ record { granted = 0 ∷ []; used = [] } }
    {
        Window { next: 0, top: 1 }
    }

    /// Uses as many ids as a request costs, and gives the least of them, which is the id of the request.
    pub fn take(&mut self, charge: u16) -> Option<Mid>
        requires { 1 ≤ charge }

        // They are the least ones that may be used.
        ensures some { IfSome result (λ mid. (charge ≤ length (usable self.old))
            × (mid.0 ≡ least self.old)
            × (self.new ≡ after_use charge self.old)) }

        // So many fewer may be used then.
        ensures left { IfSome result (λ _. length (usable self.new) + charge ≡ length (usable self.old)) }

        // None exactly where fewer may be used.
        ensures none { IfNone result ((length (usable self.old) < charge) × (self.new ≡ self.old)) }

        // They follow one another, behind all that were used, of which there are as many as numbers below them.
        ensures follow { IfSome result (λ mid. (self.new.used ≡ self.old.used ++ numbers mid.0 charge)
            × All (λ id. id < mid.0) self.old.used
            × (mid.0 ≡ length self.old.used)) }
    {
        let charge = u64::from(charge);
        if self.top - self.next < charge {
            return None;
        }
        let mid = Mid(self.next);
        self.next += charge;
        Some(mid)
    }

    /// Grants the next `n` ids, but not [`NO_REQUEST`].
    pub fn grant(&mut self, n: u16)
        ensures { self.new ≡ granted_more n self.old }
    {
        self.top = self.top.saturating_add(u64::from(n));
    }

    /// The same ids once more, to try on it what is to be sent.
    pub fn copy(&self) -> Window
        ensures { result ≡ self.now }
    {
        Window {
            next: self.next,
            top: self.top,
        }
    }

    /// How many ids may be used.
    pub fn free(&self) -> u64
        ensures { result ≡ length (usable self.now) }
    {
        self.top - self.next
    }
}
