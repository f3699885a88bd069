// What the functions of a step tell each other: what it is asked, and where a run stands in its circuit.

// The numbers that a step gets: the role, whether its state waits for the far bits, and these. The role stays its number: it is tested
// last (document 02, 9), and the specs of steps and rounds go by it. The far bits are lent whether or not a state waits, and then untested.
#[derive(Clone, Copy)]
pub struct Asked {
    pub role: u8,
    pub waits: bool,
    pub far_first: u8,
    pub far_second: u8,
}

// A gate's number, its place in the bytes of a circuit, and how many ANDs come before it.
#[derive(Clone, Copy)]
pub struct Place {
    pub gate: usize,
    pub at: usize,
    pub ands: usize,
}

// The AND that a run waits at: its gate's number, its wires, how many ANDs come before it, and the place after it.
#[derive(Clone, Copy)]
pub struct Spot {
    pub gate: usize,
    pub first_wire: usize,
    pub second_wire: usize,
    pub ands: usize,
    pub next: usize,
}

// A run by its state.
#[derive(Clone, Copy)]
pub enum Run {
    // It is fresh, or waits at an AND.
    Going(Option<Spot>),
    // Its outputs are written.
    Finished,
}
