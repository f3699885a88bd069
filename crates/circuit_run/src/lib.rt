// An end's run of a circuit in definitions and laws: by steps, each up to the next AND, and by rounds, each of which opens every AND
// whose wires are known. The code stands in crates `circuit_gates`, `circuit_step` and `circuit_round`.
#![tactic(auto)]

ghost use Rattle.std.specs.Prelude.{◌≡◌};
ghost use Rattle.answer.specs.Refused.{number_of};
ghost use Rattle.circuit_run.specs.Inner.Places.{stepped_with};
ghost use Rattle.circuit_run.specs.Inner.RoundPasses.{rounded_with};

mod places;

use answer::Refusal;
pub use places::{Asked, Place, Run, Spot};

// The end of a run by its role: the pairing's noise end makes each NOT and adds the product of what is opened. It is a number, as C
// passes it: it is tested last (document 02, 9), and `opened_share` and `give_and` promise a share for every number.
pub const ROLE_NOISE: u8 = 1;

pub const ROLE_SCALAR: u8 = 2;

// The phases of a run by steps: fresh, waiting for the far bits of an AND, and with its outputs written. They are numbers, as C reads
// them in the state, which may hold any other (17).
pub const RUN_FRESH: u32 = 0;

pub const RUN_WAITS: u32 = 1;

pub const RUN_FINISHED: u32 = 2;

// An end's run by steps: 0 fresh, 1 waits for the far bits of the AND at `gate`, 2 finished; this end's shares of the wires passed.
#[repr(C)]
#[derive(Clone, Copy)]
pub struct StepState {
    pub phase: u32,
    pub gate: u32,
    pub wires: [u8; 4096],
}

// The answer of a step, in which C reads the number beside the values.
#[repr(C)]
#[derive(Clone, Copy)]
pub struct Stepped {
    pub number: u32,
    pub written: usize,
    pub first_bit: u8,
    pub second_bit: u8,
    pub state: StepState,
}

impl Stepped {
    // A refused step: zeros, and the state as it was. Each answer of C has fields of its own, and so a `refused` of its own.
    pub fn refused(refusal: Refusal, state: StepState) -> Stepped
        ensures { result ≡ stepped_with (number_of refusal) 0 0 0 state }
    {
        Stepped {
            number: refusal.number(),
            written: 0,
            first_bit: 0,
            second_bit: 0,
            state,
        }
    }
}

// An end's run by rounds: a byte for each wire, 0 while its share is not known, 1 for an AND that waits for the far bits, 2 + share
// once known.
#[repr(C)]
#[derive(Clone, Copy)]
pub struct RoundState {
    pub wires: [u8; 4096],
}

// The answer of a round, in which C reads the number beside the values.
#[repr(C)]
#[derive(Clone, Copy)]
pub struct Rounded {
    pub number: u32,
    pub written: usize,
    pub bits_written: usize,
    pub state: RoundState,
}

impl Rounded {
    // A refused round: zeros, and the state as it was.
    pub fn refused(refusal: Refusal, state: RoundState) -> Rounded
        ensures { result ≡ rounded_with (number_of refusal) 0 0 state }
    {
        Rounded {
            number: refusal.number(),
            written: 0,
            bits_written: 0,
            state,
        }
    }
}
