// Exact fractions, and what it is for two of them to be equal, in order, or apart by a limit at most.
// Rule 10.2: an integer of any sign over one above 0, as large as they need be. Rule 10.3: cross products tell whether
// two are equal, and whether one keeps a limit.
// No program computes with them, so this crate has no code.
// The definitions are in specs/; the laws, which the proofs of other crates cite, are in proofs/.
#![tactic(auto)]
