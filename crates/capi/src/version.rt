// The release that the library is of.
ghost use Rattle.std.specs.Prelude.{◌≡◌};
ghost use Rattle.capi.specs.Version.{version};

const MAJOR: u32 = 0;

const MINOR: u32 = 15;

const PATCH: u32 = 0;

// The version number as one number.
#[unsafe(no_mangle)]
pub extern "C" fn leskwyn_version() -> u32
    ensures { result ≡ version }
{
    MAJOR * 1000000 + MINOR * 1000 + PATCH
}
