// What the annuity factors are, RULES section 8: the year step, and A, G, T, Z and C in billionths. This crate has no code: the
// crate annuity works the factors.
// specs/Factors.antt has them, rounded and exact, in the rules' letters, and specs/Basis.antt what they rest on;
// specs/Accuracy.antt says how far apart the two lie. The laws, which the proofs of other crates cite, are in proofs/.
#![tactic(auto)]
