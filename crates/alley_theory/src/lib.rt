// The sheet of an alley: definitions, claims and laws, in specs/. The only code is the types of what is listed.
#![tactic(auto)]

// What is listed of a lane: 0 and its gates and cost, or the number of its refusal and 0.
#[derive(Clone, Copy)]
pub struct Entry {
    pub code: u8,
    pub gates: u64,
    pub cost: u64,
}

// The sheet so far: the number of lanes listed, refused ones too, and both sums.
#[derive(Clone, Copy)]
pub struct Totals {
    pub lanes: usize,
    pub gates: u64,
    pub cost: u64,
}

// What `list_lane` answers: 0 or the refusal, how many bytes the lane takes (0 for no lane), the length of its line with the line feed, what
// is listed of it, and the totals after it.
#[derive(Clone, Copy)]
pub struct Listed {
    pub code: u8,
    pub taken: usize,
    pub length: usize,
    pub entry: Entry,
    pub totals: Totals,
}

// What `total_line` answers: 0 or the refusal, and the line's length with its line feed.
#[derive(Clone, Copy)]
pub struct LineWritten {
    pub code: u8,
    pub length: usize,
}

// How many bytes a lane takes with its length, 0 for no lane; and whether it is whole or cut short.
#[derive(Clone, Copy)]
pub struct Found {
    pub taken: usize,
    pub complete: bool,
}
