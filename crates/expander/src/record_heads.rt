// The call that describes a record under its exported name.
ghost use Rattle.std.specs.Prelude.{◌≡◌};
ghost use Rattle.page_two.specs.Document02 as document02;

use record_describe::Described;

// The head of a record that its end would accept, or that record's number.
#[unsafe(no_mangle)]
pub extern "C" fn expander_describe(source: &[u8]) -> Described
    ensures { document02.description result.number result.end
        (record {
          field = result.field;
          d = result.depth;
          g = result.branch_bits;
          t = result.trees;
          ℓ = result.terms;
          n = result.outputs;
          code_key = result.code_key;
          label = result.label;
        })
        result.leaves result.element_words source.now ≡ document02.describe source.now }
{
    record_describe::describe(source)
}
