// A section that is compressed over its full height: depths of the neutral axis beyond 10h, up to 30h. Document 02, ticket 11, after clause 6.1.

#![tactic(auto)]

pub mod force;
pub mod search;
