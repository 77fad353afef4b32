// The worked files of RULES section 14 and their answers, computed from what the crate walk defines. They are apart from it
// since each takes the whole table to compute, and every must-fail edit of walk would compute them anew.
#![tactic(auto)]
