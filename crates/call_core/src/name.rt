//! The call that writes the name of a scheme, which is given by its number in the report of an audit.
ghost use Rattle.call_core.specs.Names.{PutsSchemeName};

use crate::report::{put, put_whole};
use crypt_core::method::Method;
use crypt_core::other_scheme::OtherScheme;

/// Writes the crypt(5) name of the scheme with this number to `out`, followed by a zero byte. A name that doesn't fit
/// is cut. If no scheme has the number, the name is `unknown scheme`.
///
/// Returns 1, or 0 if the name was cut or no scheme has the number.
pub fn put_scheme_name(number: u32, out: &mut [u8]) -> i32
    ensures { PutsSchemeName number out.old result out.new }
{
    if let Some(method) = Method::numbered(number) {
        return put_whole(out, method.name());
    }
    if let Some(other) = OtherScheme::numbered(number) {
        return put_whole(out, other.name());
    }
    put(out, b"unknown scheme");
    0
}
