//! The version of this library, and of the crate that it ports.
ghost use Rattle.std.specs.Prelude.{◌≡◌};

/// The version of this library, 2.0.0: ten thousands for the first number, hundreds for the second, ones for the third.
#[unsafe(no_mangle)]
pub extern "C" fn gix_date_version() -> u32
    ensures { result ≡ 20_000 }
{
    20_000
}

/// The version of the crate gix-date that this library ports, 0.18.1.
#[unsafe(no_mangle)]
pub extern "C" fn gix_date_ported_version() -> u32
    ensures { result ≡ 1801 }
{
    1801
}
