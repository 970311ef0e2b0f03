// The plain reader (demand 3). This crate has no code: specs/Reader is 01's plain reader; specs/Called is one call of any function, as its caller knows it;
// proofs/Follows holds the exact step of the lent loader to the plain reader. The lists of calls stand in the crate calls.
#![tactic(auto)]
