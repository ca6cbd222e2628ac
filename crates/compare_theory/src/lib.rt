// Two networks compared: what the verdicts say, the two side by side as one list of gates, what a partial assignment of their signals forces, and
// what a refutation by decisions holds: definitions and laws, in specs/. The only code is the type of the joint's tables.
#![tactic(auto)]

// The joint of two networks. Inputs have signals 0 to inputs − 1, and gate g has signal inputs + g. Row g of `wires` has the feed count of gate g and
// then the signals of its 16 feed places; row g of `weights` has its threshold and then the weights of these places. It is large: it is lent.
#[derive(Drop)]
pub struct Tables {
    pub inputs: usize,
    pub gates: usize,
    pub wires: [[u16; 17]; 256],
    pub weights: [[i32; 17]; 256],
}
