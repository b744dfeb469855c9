ghost use Rattle.std.specs.Prelude.{◌≡◌, ◌+◌, ◌*◌};

const MAJOR: u32 = 0;

const MINOR: u32 = 1;

const PATCH: u32 = 0;

/// The version as one number: 1,000,000 for each major one, 1,000 for each minor one, and 1 for each patch.
#[unsafe(no_mangle)]
pub extern "C" fn kuifje_version() -> u32
    ensures { result ≡ MAJOR * 1000000 + MINOR * 1000 + PATCH }
{
    MAJOR * 1_000_000 + MINOR * 1_000 + PATCH
}
