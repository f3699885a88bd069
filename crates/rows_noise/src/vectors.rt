// What a row adds up at the noise end.

// The vectors of the noise end. Field 1 sums them to words and blocks, field 2 to words that are yet to be reduced.
#[derive(Clone, Copy)]
pub struct NoiseVectors<'a> {
    pub noise: &'a [u64],
    pub v: &'a [u64],
}
