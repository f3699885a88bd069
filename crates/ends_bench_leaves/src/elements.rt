// An entry × a value added to an output, of noise values or of elements in either field. A function for each kind of value, since what is
// read, multiplied and reduced differs in each; one for all would take every step of it from the caller.
ghost use Rattle.std.specs.Prelude.{◌≡◌, ◌+◌, ◌*◌, ◌≤◌, ◌<◌, length};
ghost use Rattle.algebra.specs.Coding.{at};
ghost use Rattle.algebra.specs.Inner.Put.{put};
ghost use Rattle.field.specs.Binary.{binary, bit_add, bit_mul, block, block_add, block_scale};
ghost use Rattle.prime.specs.Prime.{primes, prime, prime_add, prime_mul};
ghost use Rattle.field.specs.Inner.Elements.{noise_in};
ghost use Rattle.ends_bench_leaves.specs.Inner.Vectors.{field_for, element_value};

use field::{BINARY, Block, Element, FieldElement, add_bits};
use prime::Prime;

// Adds entry × bit to bit k of the outputs.
fn add_bit(k: usize, entry: u64, bit: u64, out: &mut [u64])
    requires { k < length out.old }
    ensures { out.new ≡ put binary.noise_values out.old k
        (bit_add (at binary.noise_values out.old k) (bit_mul entry bit)) }
{
    out[k] = add_bits(out[k], (entry % 2) * (bit % 2));
}

// Adds entry × block to block k of the outputs.
fn add_block(k: usize, entry: u64, element: Element, out: &mut [u64])
    requires { k * 2 + 2 ≤ length out.old }
    ensures { out.new ≡ put binary.elements out.old k
        (block_add (at binary.elements out.old k) (block_scale entry (block element.low element.high))) }
{
    // By hand, since an element is a block in field 1 alone, and `From` would say so of both.
    let value = Block {
        low: element.low,
        high: element.high,
    };
    Block::at(out, k).add(value.scale(entry)).put(out, k);
}

// Adds entry × element to element k of the outputs in field 2.
fn add_prime(k: usize, entry: u64, word: u64, out: &mut [u64])
    requires { k < length out.old }
    ensures { out.new ≡ put primes.elements out.old k
        (prime_add (at primes.elements out.old k) (prime_mul (prime entry) (prime word))) }
{
    out[k] = Prime::reduce(Prime::add_product(out[k], entry, word)).word;
}

// Adds entry × value to output k of a vector. Numbers, for which docs/ARCHITECTURE.md has this function: its sum is promised for each.
pub fn add_output(
    vector: usize,
    field: usize,
    k: usize,
    entry: u64,
    value: Element,
    out: &mut [u64],
)
    requires { k * (field_for vector field).elements.width + (field_for vector field).elements.width ≤ length out.old }
    ensures { out.new ≡ put (field_for vector field).elements out.old k
        ((field_for vector field).scaled.group.add (at (field_for vector field).elements out.old k)
        ((field_for vector field).scaled.scale (noise_in field entry) (element_value vector field value))) }
{
    if field != BINARY {
        add_prime(k, entry, value.low, out);
        return;
    }
    if vector == 1 {
        add_bit(k, entry, value.low, out);
        return;
    }
    add_block(k, entry, value, out);
}
