// What a row adds up at the scalar end.

// The vector of the scalar end. Field 1 sums it to blocks, field 2 to words that are yet to be reduced.
#[derive(Clone, Copy)]
pub struct ScalarVector<'a> {
    pub w: &'a [u64],
}
