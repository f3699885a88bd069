// Blocks in bytes: what `Block::read` and `Block::write` do, promised in the words of the trees' definitions, so that no caller proves it.
ghost use Rattle.std.specs.Prelude.{◌≡◌, ◌+◌, ◌≤◌, length};
ghost use Rattle.std.proofs.lemmas.List.Edits.{sets};
ghost use Rattle.tree.specs.Columns.{columns_at, columns_bytes};
ghost use Rattle.tree.specs.Inner.Nodes.{node_of};

use field::Block;

// The node whose 16 bytes begin at a place: a block, as the definitions of trees say it.
pub fn node_at(bytes: &[u8], at: usize) -> Block
    requires { at + 16 ≤ length bytes.now }
    ensures { node_of result ≡ columns_at bytes.now at }
{
    Block::read(bytes, at)
}

// The block whose 16 bytes begin at a place, in columns.
pub fn columns_at(bytes: &[u8], at: usize) -> [[u8; 4]; 4]
    requires { at + 16 ≤ length bytes.now }
    ensures { result ≡ columns_at bytes.now at }
{
    node_at(bytes, at).columns()
}

// Writes the 16 bytes of a node from a place on.
pub fn put_node(bytes: &mut [u8], at: usize, s: Block)
    requires { at + 16 ≤ length bytes.old }
    ensures { bytes.new ≡ sets bytes.old at (columns_bytes (node_of s)) }
{
    s.write(bytes, at);
}
