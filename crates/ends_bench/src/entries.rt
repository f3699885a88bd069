// The rows of a batch, a strip at a time: going down from the top strip, a row's entry at a place of strip i is the sum of the
// coefficients of its terms above i, and that of term i where its place is not below.
ghost use Rattle.std.specs.Prelude.{◌≡◌, ◌+◌, ◌*◌, ◌≤◌, ◌<◌, length};
ghost use Rattle.aes128.specs.Inner.Words.{round_keys};
ghost use Rattle.field.specs.Inner.Elements.{noise_in};
ghost use Rattle.ends_bench_leaves.specs.Inner.Vectors.{field_for, element_value};
ghost use Rattle.ends_bench.specs.Inner.Rows.{HasTerms, entry_in, SumsMore, place_added};

use code_places::Code;
use ends_bench_leaves::{Vector, add_output};
use field::{Element, coefficient, noise_sum};
use window_tests::shape_of;

// A row at a strip: the place and the coefficient of the strip's own term, and the sum of the coefficients of the terms above.
#[derive(Clone, Copy)]
pub struct Pending {
    pub place: usize,
    pub coefficient: u64,
    pub sum: u64,
}

impl Pending {
    // The row's entry at place j.
    fn entry_at(self, field: usize, j: usize) -> u64
        ensures { noise_in field result ≡ entry_in field self j }
    {
        if self.place < j {
            return noise_sum(field, self.sum, 0);
        }
        noise_sum(field, self.sum, self.coefficient)
    }
}

// Makes term i of each row, the first of which is row `first` of the code under these round keys. The `Code` is made here: what it holds
// besides the keys stands in the vector.
pub fn make_terms(vector: &Vector, keys: &[u64; 40], first: usize, i: usize, rows: &mut [Pending])
    requires { (first + length rows.old ≤ 32768) × (i < vector.now.layout.terms) }
    ensures { HasTerms (round_keys keys.now) vector.now.layout first i (length rows.old) rows.old rows.new }
{
    let layout = vector.layout;
    let code = Code::new(vector.cipher.tables, keys, shape_of(layout));
    for (k, row) in rows.iter_mut().enumerate() {
        let term = code.row_term(first + k, i);
        row.place = term.place;
        row.coefficient = coefficient(layout.field, term.word);
    }
}

// Adds each row's coefficient to its sum, at the end of a strip.
pub fn pass_terms(field: usize, rows: &mut [Pending])
    ensures { SumsMore field (length rows.old) rows.old rows.new }
{
    for row in rows.iter_mut() {
        row.sum = noise_sum(field, row.sum, row.coefficient);
    }
}

// Adds to each output its row's entry at place j × the value there.
pub fn add_place(vector: &Vector, rows: &[Pending], j: usize, value: Element, out: &mut [u64])
    requires { length out.old ≡ length rows.now * (field_for vector.now.number vector.now.layout.field).elements.width }
    ensures { out.new ≡ place_added vector.now.number vector.now.layout.field rows.now j
        (element_value vector.now.number vector.now.layout.field value) out.old }
{
    let field = vector.layout.field;
    for (k, row) in rows.iter().enumerate() {
        add_output(vector.number, field, k, row.entry_at(field, j), value, out);
    }
}
