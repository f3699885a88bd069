// The scalar record.
ghost use Rattle.std.specs.Prelude.{length};
ghost use Rattle.number.specs.Inner.Written.{Wrote};
ghost use Rattle.record.specs.Inner.Heads.{scalar_with};
ghost use Rattle.record.specs.Writing.{write_scalar};
ghost use Rattle.dealing.specs.Input.{words_of};
ghost use Rattle.dealing_call.specs.Inner.Steps.{ScalarPlaced};

use dealing_tests::Input;
use field::element_at;
use record::write_scalar;

// Writes the scalar record at the buffer's front; its length.
pub fn write_scalar_part(out: &mut [u8], input: &Input) -> usize
    requires { ScalarPlaced input.now.layout input.now.code_key.now input.now.label.now input.now.delta.now
        input.now.roots.now (length out.old) }
    ensures { Wrote out.old 0
        (write_scalar (scalar_with input.now.layout input.now.code_key.now input.now.label.now
        (words_of input.now.layout.field input.now.delta.now) input.now.roots.now))
        result out.new }
{
    let scalar = element_at(input.layout.field, input.delta, 0);
    write_scalar(
        out,
        input.layout,
        input.code_key,
        input.label,
        scalar,
        input.roots,
    )
}
