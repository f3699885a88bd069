// A row's outputs with the test of the words that it uses. The test stands beside the outputs, and an Option does not take its place: rows
// promise their outputs also where a word is not admitted. Two structs, since u, v and w are promised by these names.

// A row's outputs at the noise end, and whether every word that it uses is admitted; before the row's end, the sums of its terms so far,
// which in field 2 are words that are not reduced.
#[derive(Clone, Copy)]
pub struct Pair<U, V> {
    pub u: U,
    pub v: V,
    pub admitted: bool,
}

// The same at the scalar end in field 2, of one vector.
#[derive(Clone, Copy)]
pub struct Single<W> {
    pub w: W,
    pub admitted: bool,
}
