// Fields by their number: `Block`, an element of field 1, 16 bytes as two words under exclusive or; `Element` and noise values of either
// field, which say what differs from field to field; elements in words, and words in bytes. Field 2's arithmetic stands in crate `prime`.
#![tactic(auto)]

mod block;
mod bytes;
mod element;
mod noise;
mod parts;
mod width;

pub use block::{Block, add_bits};
pub use bytes::{put_word, word_at};
pub use element::{
    Element, element_at, element_difference, element_length, element_of, element_scaled,
    element_sum, is_element, is_scalar, leaf_element, put_element, rest_zero, same_element,
};
pub use noise::{coefficient, is_field, is_noise, noise_sum, one_noise};
pub use parts::FieldElement;
pub use width::element_width;

// The fields' numbers. No enum, since a record's field byte may be any, and the functions here promise their answer for every number.
pub const BINARY: usize = 1;

pub const PRIME: usize = 2;
