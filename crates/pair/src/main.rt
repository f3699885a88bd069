// Reads `noise.key`, then `scalar.key`, and prints the line of the two records. An argument changes nothing, and is said on standard error.
#![tactic(auto)]

ghost use Rattle.io.specs.Counts.{IsPrefixLen};

use std::env::FillError;
use std::fs;
use std::io::Read;
use std::rt::{Env, Files};

// Reads to the front of `bytes` until they are full, the file ends or a read fails, and returns how many bytes were read.
// A loop: of `Read`'s own methods `read_exact` loses that count where the file is shorter, and `read_to_end` needs a heap.
fn read_front<F: Read>(file: &mut F, bytes: &mut [u8]) -> usize
    ensures { IsPrefixLen result bytes.new }
{
    let mut done = 0;
    while let Ok(n @ 1..) = file.read(&mut bytes[done..]) {
        done += n;
    }
    done
}

// Reads a file to the front of `bytes`, as far as it can be read, and returns how many bytes were read. A missing file counts
// as empty.
fn read_file<R: Files>(rt: &R, path: &str, bytes: &mut [u8]) -> usize
    ensures { IsPrefixLen result bytes.new }
{
    match fs::open(rt, path) {
        Ok(mut file) => read_front(&mut file, bytes),
        Err(_) => 0,
    }
}

// Whether the program was given an argument, of any length.
fn has_argument(rt: &impl Env) -> bool {
    !matches!(rt.arg(1, &mut [0u8; 1]), Err(FillError::NotPresent))
}

// What cannot be printed is left out. A buffer has the count that was read beside it, since no heap is used.
fn main(rt: HostRuntime) {
    if has_argument(&rt) {
        let _ = eprintln!(rt;
            "pair: takes no argument: it reads noise.key and scalar.key in the folder where it is run"
        );
    }
    let mut noise = io::large_buffer();
    let mut scalar = io::large_buffer();
    let noise_length = read_file(&rt, "noise.key", &mut noise);
    let scalar_length = read_file(&rt, "scalar.key", &mut scalar);
    let mut out = [0u8; 64];
    let length = pair_line::line(&noise[..noise_length], &scalar[..scalar_length], &mut out);
    let _ = rt.write_all(&out[..length]);
    let _ = rt.write_all(b"\n");
}
