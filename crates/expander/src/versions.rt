// The library's version, so that whoever loads the shared object can ask for it.
ghost use Rattle.std.specs.Prelude.{◌≡◌};
ghost use Rattle.page_two.specs.Document02 as document02;

// The version as a number, as the header has it.
#[unsafe(no_mangle)]
pub extern "C" fn expander_version() -> u32
    ensures { result ≡ document02.version }
{
    20200
}
