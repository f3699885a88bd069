// Running to the next AND or to the end.
ghost use Rattle.std.specs.Prelude.{◌++◌, ◌≡◌, ◌*◌, ◌≤◌, length, drop, IfSome};
ghost use Rattle.circuit.specs.Answer.{content};
ghost use Rattle.circuit.specs.Value.{at_wires};
ghost use Rattle.circuit_run.specs.Inner.Places.{Stands, WaitsAt, Stops, proceeded};
ghost use Rattle.circuit_run.specs.Step.{fresh_wires, run_on};

use crate::tests::Step;
use circuit::{Circuit, Gate, known_gate};
use circuit_gates::{flip, give_and};
use circuit_run::{Place, Spot};

// Runs from a place to the next AND, which it gives, or to the end. It keeps the place of each gate by hand, since it gives that after the
// AND: the iterator `Gates` keeps its own.
fn run_on(circuit: Circuit, role: u8, from: Place, wires: &mut [u8; 4096]) -> Option<Spot>
    requires { Stands circuit.source.now circuit.layout from }
    ensures { Stops circuit.entry.source.now circuit.entry.layout
        (run_on role circuit.entry.layout.inputs (drop from.gate (content circuit.entry.source.now).gates) from.gate wires.old)
        result wires.new }
{
    let Circuit { source, layout } = circuit;
    let mut at = from.at;
    for gate in from.gate..layout.gates {
        let wire = layout.inputs + gate;
        let (found, next) = known_gate(source, at, wire);
        wires[wire] = match found {
            Gate::Xor(a, b) => wires[a] ^ wires[b],
            Gate::Not(a) => flip(role, wires[a]),
            Gate::And(first_wire, second_wire) => {
                return Some(Spot {
                    gate,
                    first_wire,
                    second_wire,
                    ands: from.ands,
                    next,
                });
            }
        };
        at = next;
    }
    None
}

// The wires of a fresh run: the shares, and zero past them.
fn fresh_wires(shares: &[u8]) -> [u8; 4096]
    requires { length shares.now ≤ 4096 }
    ensures { result ≡ fresh_wires shares.now }
{
    let mut wires = [0u8; 4096];
    wires[..shares.len()].copy_from_slice(shares);
    wires
}

// Takes a fresh run, or one that waits at an AND, to the next AND or to the end.
pub fn proceed(step: Step, waiting: Option<Spot>, wires: &mut [u8; 4096]) -> Option<Spot>
    requires few { length step.shares.now ≤ 4096 }
    requires enough { step.circuit.layout.ands * 3 ≤ length step.triples.now }
    requires waits { IfSome waiting (λ spot. WaitsAt step.circuit.source.now step.circuit.layout spot) }
    ensures { Stops step.entry.circuit.source.now step.entry.circuit.layout
        (proceeded step.entry.circuit.source.now step.entry.circuit.layout step.entry.asked waiting step.entry.shares.now step.entry.triples.now wires.old)
        result wires.new }
{
    let Step {
        circuit,
        asked,
        shares,
        triples,
    } = step;
    let layout = circuit.layout;
    let from = match waiting {
        Some(spot) => {
            give_and(asked, spot, layout.inputs + spot.gate, triples, wires);
            Place {
                gate: spot.gate + 1,
                at: spot.next,
                ands: spot.ands + 1,
            }
        }
        None => {
            *wires = fresh_wires(shares);
            Place {
                gate: 0,
                at: layout.body,
                ands: 0,
            }
        }
    };
    run_on(circuit, asked.role, from, wires)
}

// Writes the shares of the output wires, which a step's state holds as they are; a round's has them in bytes (`write_shares`). That
// the outputs have room is asked by clause: the buffer is C's, and `check` tests it.
pub fn write_outputs(circuit: Circuit, wires: &[u8; 4096], output: &mut [u8])
    requires { circuit.layout.outputs ≤ length output.old }
    ensures { output.new
        ≡ at_wires wires.now (content circuit.entry.source.now).outputs ++ drop circuit.entry.layout.outputs output.old }
{
    for (i, wire) in circuit.output_wires().enumerate() {
        output[i] = wires[wire];
    }
}
