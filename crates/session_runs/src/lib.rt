//! What a run makes of a session, as definitions: that it answers the elision, and which records it leaves.
#![tactic(auto)]
