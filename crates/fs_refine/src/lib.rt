//! What a client that does what it may has to do with a client without caches: at an honest share it makes no difference.
#![tactic(auto)]
