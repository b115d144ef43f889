// The export of the version: 10000 x major + 100 x minor + patch, here 0.1.0. RG_VERSION in include/rivetgnome.h says the same.
ghost use Rattle.std.specs.Prelude.{◌≡◌};

#[unsafe(no_mangle)]
pub extern "C" fn rg_version() -> u32
    ensures { result ≡ 100 }
{
    100
}
