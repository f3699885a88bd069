// An accepted circuit, and what is passed of it a second time.
ghost use Rattle.std.specs.Prelude.{true, ◌≡◌, ◌+◌, ◌≤◌};
ghost use Rattle.number.specs.Inner.Known.{is_whole};
ghost use Rattle.circuit.specs.Admitted.{most_wires};
ghost use Rattle.circuit.specs.Answer.{HasLayout};
ghost use Rattle.circuit.specs.Inner.Layouts.{HasLayout-prop};
ghost use Rattle.circuit.specs.Reading.{read_gates, read_wires};

use crate::Layout;

// An accepted circuit: the bytes that it was read from, which a caller lends, and its numbers.
#[derive(Clone, Copy)]
pub struct Circuit<'a> {
    pub source: &'a [u8],
    pub layout: Layout,
    ghost read: { HasLayout source.now layout } by { HasLayout-prop source.now layout },
}

// The gates of an accepted circuit that are left: the place of the first, its wire, and how many they are.
#[derive(Drop)]
pub struct Gates<'a> {
    pub(crate) source: &'a [u8],
    pub(crate) at: usize,
    pub(crate) wire: usize,
    pub(crate) left: usize,
    ghost whole: { is_whole (read_gates left wire source.now at) ≡ true },
    ghost few: { wire + left ≤ most_wires },
}

// The output wires of an accepted circuit that are left: the place of the first, the number of all wires, and how many they are.
#[derive(Drop)]
pub struct OutputWires<'a> {
    pub(crate) source: &'a [u8],
    pub(crate) at: usize,
    pub(crate) limit: usize,
    pub(crate) left: usize,
    ghost whole: { is_whole (read_wires left limit source.now at) ≡ true },
}
