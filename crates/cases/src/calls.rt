// The calls' numbers, one line a case. What cannot be printed is left out. A number is printed, so it stays the one that C has.
use crate::dealings::{Dealing, USUAL, front};

// n = 4 and n = 5 for d = 3, two equal positions, and more terms than places.
pub fn dealings(rt: &impl Print) {
    let cases = [
        ("d = 3, n = 4", USUAL),
        (
            "d = 3, n = 5",
            Dealing {
                outputs: 5,
                ..USUAL
            },
        ),
        (
            "two equal positions",
            Dealing {
                positions: &[6, 6],
                ..USUAL
            },
        ),
        (
            "d = 1, three terms a row",
            Dealing {
                depth: 1,
                outputs: 1,
                positions: &[0, 1],
                ..USUAL
            },
        ),
    ];
    for (name, dealing) in cases {
        let number = dealing.deal().answer.number;
        let _ = println!(rt; "{name}: {number}");
    }
}

// The number of a window at the noise end, of a record of eight leaves in field 2. Each
// end has its calls and its vectors, so one function for both would take the calls as parameters.
fn noise_window(source: &[u8], first: usize, count: usize) -> u32 {
    let mut noise = [0u64; 8];
    let mut v = [0u64; 8];
    ends_calls::noise::offline(source, &mut noise, &mut v);
    let mut u_out = [0u64; 4];
    let mut v_out = [0u64; 4];
    ends_calls::noise::online(source, &noise, &v, first, count, &mut u_out, &mut v_out).number
}

// The number of a window at the scalar end, of a record of eight leaves in field 2.
fn scalar_window(source: &[u8], first: usize, count: usize) -> u32 {
    let mut w = [0u64; 8];
    let mut delta = [0u64; 2];
    ends_calls::scalar::offline(source, &mut w, &mut delta);
    let mut w_out = [0u64; 4];
    ends_calls::scalar::online(source, &w, first, count, &mut w_out).number
}

// Windows of a dealing with n = 4: the first output and how many.
const WINDOWS: [(usize, usize); 3] = [(3, 1), (3, 2), (4, 0)];

// These windows at either end.
pub fn windows(rt: &impl Print) {
    let records = USUAL.deal();
    for (first, count) in WINDOWS {
        let number = noise_window(records.noise_record(), first, count);
        let _ = println!(rt; "noise end, n = 4, window {first} and {count}: {number}");
    }
    for (first, count) in WINDOWS {
        let number = scalar_window(records.scalar_record(), first, count);
        let _ = println!(rt; "scalar end, n = 4, window {first} and {count}: {number}");
    }
}

// The number of an offline call on a record of two leaves.
fn offline_number(source: &[u8]) -> u32 {
    let mut noise = [0u64; 2];
    let mut v = [0u64; 4];
    ends_calls::noise::offline(source, &mut noise, &mut v).number
}

// A noise record of 72 bytes, with d = g = t = ℓ = n = 1, whole, cut to 71 and with one byte added.
pub fn records(rt: &impl Print) {
    let small = Dealing {
        field: 1,
        depth: 1,
        trees: 1,
        terms: 1,
        outputs: 1,
        roots: &[3; 16],
        positions: &[1],
        values: &[1],
        delta: [5; 16],
        code_key: [7; 16],
    };
    let records = small.deal();
    let bytes = records.answer.first_written;
    let _ = println!(rt; "bytes of a noise record with d = g = t = l = n = 1: {bytes}");
    let cases = [
        ("whole", 72),
        ("cut to 71", 71),
        ("with one byte added", 73),
    ];
    for (name, length) in cases {
        let number = offline_number(front(&records.noise, length));
        let _ = println!(rt; "{name}: {number}");
    }
}
