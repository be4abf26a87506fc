//! The version of the program, the libraries and the source archive. `tools/version` reads it here; `c/mkpasswd.h` and
//! the packages repeat it.

/// The version, as text.
pub const VERSION: &str = "3.0.0";

/// The version as a number: `10000 * major + 100 * minor + patch`.
pub const VERSION_NUMBER: u32 = 30000;
