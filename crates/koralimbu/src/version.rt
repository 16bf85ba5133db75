// The version of the library, raised with each change of a call or of the text.
ghost use Rattle.std.specs.Prelude.{◌≡◌};
ghost use Rattle.koralimbu.specs.Version.{version as version·number};

const MAJOR: u32 = 0;

const MINOR: u32 = 8;

const PATCH: u32 = 0;

// The version as one number.
pub fn koralimbu_version() -> u32
    ensures { result ≡ version·number }
{
    MAJOR * 1000000 + MINOR * 1000 + PATCH
}
