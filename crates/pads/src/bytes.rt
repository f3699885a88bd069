// Blocks in bytes. `Block` reads and writes them; these two say so in the words of `Coding`, which every loop over pads is proved in.
ghost use Rattle.std.specs.Prelude.{◌≡◌, ◌+◌, ◌≤◌, length};
ghost use Rattle.algebra.specs.Inner.Put.{with_value};
ghost use Rattle.pads.specs.Bytes.{block_bytes};

use field::Block;

// The block whose 16 bytes begin at a place, as the definitions of pads say it.
pub fn block_at(bytes: &[u8], at: usize) -> Block
    requires { at + 16 ≤ length bytes.now }
    ensures { result ≡ block_bytes.read bytes.now at }
{
    Block::read(bytes, at)
}

// Writes the 16 bytes of a block from a place on.
pub fn put_block(bytes: &mut [u8], at: usize, b: Block)
    requires { at + 16 ≤ length bytes.old }
    ensures { bytes.new ≡ with_value block_bytes bytes.old at b }
{
    b.write(bytes, at);
}
