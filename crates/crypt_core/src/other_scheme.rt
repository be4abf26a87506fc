//! The schemes of crypt(5) that mkpasswd doesn't hash. An audit recognizes them by their form alone, and doesn't judge
//! their strength.
ghost use Rattle.std.specs.Prelude.{◌≡◌, ◌↔◌, IsTrue, IfNone, IfSome};
ghost use Rattle.crypt_core.specs.OtherSchemes.{IsOf, other_scheme_numbered, other_scheme_row};
ghost use Rattle.crypt_core.specs.declared.other_scheme.OtherScheme.{OtherScheme as Other};

use crate::setting::in_alphabet;

/// A scheme of crypt(5) that mkpasswd doesn't hash.
#[derive(Clone, Copy, Debug, PartialEq, Eq)]
pub enum OtherScheme {
    /// yescrypt: the field begins with `$y$`.
    Yescrypt,
    /// gost-yescrypt: the field begins with `$gy$`.
    GostYescrypt,
    /// bcrypt: the field begins with `$2a$`, `$2b$` or `$2y$`.
    Bcrypt,
    /// NT: the field begins with `$3$`.
    Nt,
    /// sha1crypt: the field begins with `$sha1$`.
    Sha1crypt,
    /// SunMD5: the field begins with `$md5`.
    SunMd5,
    /// bsdicrypt: the field begins with `_`.
    Bsdicrypt,
    /// descrypt, the traditional DES hash: the field has thirteen characters, all of crypt's alphabet.
    Descrypt,
}

// All schemes of `OtherScheme`, in the order of their numbers.
const OTHER_SCHEMES: [OtherScheme; 8] = [
    OtherScheme::Yescrypt,
    OtherScheme::GostYescrypt,
    OtherScheme::Bcrypt,
    OtherScheme::Nt,
    OtherScheme::Sha1crypt,
    OtherScheme::SunMd5,
    OtherScheme::Bsdicrypt,
    OtherScheme::Descrypt,
];

impl OtherScheme {
    /// Returns the scheme whose form the field has, or `None` if it has the form of no scheme in [`OtherScheme`].
    pub fn of(field: &[u8]) -> Option<OtherScheme>
        ensures found { IfSome result (λ other. IsOf other field.now) }
        ensures none { IfNone result ((other : Other) → ¬ IsOf other field.now) }
    {
        OTHER_SCHEMES
            .iter()
            .copied()
            .find(|scheme| scheme.is_of(field))
    }

    // Returns whether a field has the form of this scheme.
    fn is_of(self, field: &[u8]) -> bool
        ensures { IsTrue result ↔ IsOf self field.now }
    {
        match self {
            OtherScheme::Yescrypt => field.starts_with(b"$y$"),
            OtherScheme::GostYescrypt => field.starts_with(b"$gy$"),
            OtherScheme::Bcrypt => {
                field.starts_with(b"$2a$")
                    || field.starts_with(b"$2b$")
                    || field.starts_with(b"$2y$")
            }
            OtherScheme::Nt => field.starts_with(b"$3$"),
            OtherScheme::Sha1crypt => field.starts_with(b"$sha1$"),
            OtherScheme::SunMd5 => field.starts_with(b"$md5"),
            OtherScheme::Bsdicrypt => field.starts_with(b"_"),
            OtherScheme::Descrypt => field.len() == 13 && in_alphabet(field),
        }
    }

    /// Returns the scheme with this number, or `None` if no scheme has it.
    pub fn numbered(number: u32) -> Option<OtherScheme>
        ensures { result ≡ other_scheme_numbered number }
    {
        OTHER_SCHEMES
            .iter()
            .copied()
            .find(|scheme| number == scheme.number())
    }

    /// Returns the scheme's number in the C interface. It differs from that of every [`Method`](crate::method::Method).
    pub fn number(self) -> u32
        ensures { result ≡ (other_scheme_row self).0 }
    {
        match self {
            OtherScheme::Yescrypt => 101,
            OtherScheme::GostYescrypt => 102,
            OtherScheme::Bcrypt => 103,
            OtherScheme::Nt => 104,
            OtherScheme::Sha1crypt => 105,
            OtherScheme::SunMd5 => 106,
            OtherScheme::Bsdicrypt => 107,
            OtherScheme::Descrypt => 108,
        }
    }

    /// Returns the scheme's name in crypt(5).
    pub fn name(self) -> &'static [u8]
        ensures { result.now ≡ (other_scheme_row self).1 }
    {
        match self {
            OtherScheme::Yescrypt => b"yescrypt",
            OtherScheme::GostYescrypt => b"gost-yescrypt",
            OtherScheme::Bcrypt => b"bcrypt",
            OtherScheme::Nt => b"NT",
            OtherScheme::Sha1crypt => b"sha1crypt",
            OtherScheme::SunMd5 => b"SunMD5",
            OtherScheme::Bsdicrypt => b"bsdicrypt",
            OtherScheme::Descrypt => b"descrypt",
        }
    }
}
