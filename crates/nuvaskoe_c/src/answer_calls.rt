// The exported calls of crate ffi_answer.
// Made by tools/boundary.py from the Rattle source; not edited by hand.
ghost use Rattle.std.specs.Prelude.{◌≡◌};
ghost use Rattle.ffi_answer.specs.Answers.{version};

// As ffi_answer::nuvaskoe_version.
#[unsafe(no_mangle)]
pub extern "C" fn nuvaskoe_version() -> u32
    ensures { result ≡ version }
{
    ffi_answer::nuvaskoe_version()
}
