// Present value, normal cost and liability of a member by the five cost methods, and demand 3 entire: RULES sections 9
// and 10. specs/Costs.antt has the figures, rounded and exact, in the rules' letters; specs/Demand3.antt the two
// statements about them, the equal forms of the liability and the limits; specs/Valuation.antt the answer for plain
// values. There is no code here: the figures are made of a member's parts (crate parts), and an engine works the parts
// (plain_engine, shared_engine).
#![tactic(auto)]

// The benefit B(r), its present value V, the normal cost N and the liability L, in cents.
#[derive(Clone, Copy)]
pub struct Figures {
    pub benefit: u64,
    pub value: u64,
    pub cost: u64,
    pub liability: u64,
}
