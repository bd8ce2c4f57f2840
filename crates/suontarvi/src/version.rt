// The version of the library, over the C interface.
ghost use Rattle.std.specs.Prelude.{◌≡◌};
ghost use Rattle.suontarvi.specs.Version as specs;

// 0.3.0
const VERSION: u32 = 768;

// The version of the library as one number: major · 2^16 + minor · 2^8 + patch.
#[unsafe(no_mangle)]
pub extern "C" fn suontarvi_version() -> u32
    ensures version { result ≡ specs.version }
{
    VERSION
}
