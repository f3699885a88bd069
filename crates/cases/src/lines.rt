// Every kind of line that the pair program prints, on records dealt here. What cannot be printed is left out.
use crate::dealings::{Dealing, OTHER_ROOTS, USUAL};
use std::fmt::Display;

// Prints a case and the line of two records.
fn show(rt: &impl Print, name: impl Display + Drop, noise: &[u8], scalar: &[u8]) {
    let mut out = [0u8; 64];
    let length = pair_line::line(noise, scalar, &mut out);
    let _ = print!(rt; "{name}: ");
    let _ = rt.write_all(&out[..length]);
    let _ = rt.write_all(b"\n");
}

// Refused: the noise record, the scalar record, and both, where the noise record's number is printed.
pub fn refused(rt: &impl Print) {
    let records = USUAL.deal();
    let noise = records.noise_record();
    let scalar = records.scalar_record();
    show(rt, "noise record empty", b"", scalar);
    show(rt, "scalar record empty", noise, b"");
    show(
        rt,
        "noise record empty, scalar record of the other end",
        b"",
        noise,
    );
    show(
        rt,
        "noise record of the other end, scalar record empty",
        scalar,
        b"",
    );
}

// Too large: 2,048 leaves in either record, after any refusal.
pub fn too_large(rt: &impl Print) {
    let records = Dealing { field: 1, ..USUAL }.deal();
    let larger = Dealing {
        field: 1,
        depth: 11,
        ..USUAL
    }
    .deal();
    let noise = records.noise_record();
    let scalar = records.scalar_record();
    let large_noise = larger.noise_record();
    let large_scalar = larger.scalar_record();
    show(rt, "2,048 leaves", large_noise, large_scalar);
    show(rt, "2,048 leaves in the noise record", large_noise, scalar);
    show(rt, "2,048 leaves in the scalar record", noise, large_scalar);
    show(rt, "2,048 leaves, scalar record empty", large_noise, b"");
}

// The noise record of one dealing and the scalar record of another.
fn show_mixed(rt: &impl Print, name: &str, other: Dealing) {
    show(
        rt,
        name,
        USUAL.deal().noise_record(),
        other.deal().scalar_record(),
    );
}

// Another field, other sizes, another code key, another label.
pub fn different(rt: &impl Print) {
    show_mixed(rt, "another field", Dealing { field: 1, ..USUAL });
    show_mixed(rt, "another depth", Dealing { depth: 4, ..USUAL });
    show_mixed(
        rt,
        "another count of outputs",
        Dealing {
            outputs: 3,
            ..USUAL
        },
    );
    show_mixed(
        rt,
        "another code key",
        Dealing {
            code_key: [3; 16],
            ..USUAL
        },
    );
    let mut records = USUAL.deal();
    records.scalar[23] = 9;
    show(
        rt,
        "another label",
        records.noise_record(),
        records.scalar_record(),
    );
}

// Both fields, the largest size, and a scalar record with other roots.
pub fn checked(rt: &impl Print) {
    for (depth, outputs) in [(3, 4), (10, 512)] {
        for field in [1, 2] {
            let dealing = Dealing {
                field,
                depth,
                outputs,
                ..USUAL
            };
            let records = dealing.deal();
            show(
                rt,
                format_args!("field {field}, n = {outputs}"),
                records.noise_record(),
                records.scalar_record(),
            );
        }
    }
    show_mixed(
        rt,
        "other roots",
        Dealing {
            roots: &OTHER_ROOTS,
            ..USUAL
        },
    );
}
