//! What a run of the client has to be: which stories of a link an honest share tells, and what a client without caches answers to the
//! same calls at the same share.
#![tactic(auto)]
