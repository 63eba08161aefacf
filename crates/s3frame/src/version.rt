// The version of the library: 10,000 times the major number, 100 times the minor one, and the patch number.
ghost use Rattle.std.specs.Prelude.{◌≡◌};
ghost use Rattle.s3frame.specs.Version.{version};

const VERSION: u32 = 900;

#[unsafe(no_mangle)]
pub extern "C" fn s3_version() -> u32
    ensures { result ≡ version }
{
    VERSION
}
