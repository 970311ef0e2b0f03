// Lists of calls (demand 3). This crate has no code: specs/Calls makes a list's steps of the contracts of the very functions of crates/balqirven;
// specs/PlainReaders says what holds of every list; the proofs hold every list to the plain reader. The claim is named in the crate claims.
#![tactic(auto)]
