//! The hashing methods of crypt(5): their names, and the sizes and tables that crypt(5) fixes for each.

ghost use Rattle.std.specs.Prelude.{◌≡◌};
ghost use Rattle.crypt_core.specs.Methods.{method_named, method_numbered, method_row};
ghost use Rattle.crypt_core.specs.Packing.{groups_of};
ghost use Rattle.crypt_core.specs.Private.Groups.{groups_in, last_value_limit};
ghost use Rattle.crypt_core.specs.MethodLimits.{made_salt_length, packed_len, prefix, salt_limit};

use crate::pack::{MD5CRYPT_GROUPS, SCRYPT_GROUPS, SHA256CRYPT_GROUPS, SHA512CRYPT_GROUPS};

/// The most bytes of salt that md5crypt keeps.
pub const MD5CRYPT_SALT_LIMIT: usize = 8;

/// The most bytes of salt that SHA-crypt keeps, with either digest.
pub const SHACRYPT_SALT_LIMIT: usize = 16;

/// The most bytes of salt that scrypt keeps. No method keeps more.
pub const SCRYPT_SALT_LIMIT: usize = 86;

/// The most characters of a generated salt. scrypt's generated salts have this many.
pub const MADE_SALT_LIMIT: usize = 22;

// The number of characters of md5crypt's packed digest.
const MD5CRYPT_PACKED_LEN: usize = 22;

// The number of characters of sha256crypt's packed digest.
const SHA256CRYPT_PACKED_LEN: usize = 43;

/// The number of characters of sha512crypt's packed digest. No other method has more.
pub const SHA512CRYPT_PACKED_LEN: usize = 86;

/// The number of characters of scrypt's packed digest.
pub const SCRYPT_PACKED_LEN: usize = 43;

/// A hashing method of crypt(5).
#[derive(Clone, Copy, Debug, PartialEq, Eq)]
pub enum Method {
    /// FreeBSD's md5crypt, with the prefix `$1$`.
    Md5crypt,
    /// Drepper's SHA-crypt over SHA-256, with the prefix `$5$`.
    Sha256crypt,
    /// Drepper's SHA-crypt over SHA-512, with the prefix `$6$`.
    Sha512crypt,
    /// scrypt (RFC 7914), with the prefix `$7$`.
    Scrypt,
}

/// All methods, in the order of their numbers.
const METHODS: [Method; 4] = [
    Method::Md5crypt,
    Method::Sha256crypt,
    Method::Sha512crypt,
    Method::Scrypt,
];

/// A method's row in the table of what crypt(5) fixes.
#[derive(Clone, Copy)]
pub(crate) struct MethodRow {
    /// The method's name.
    pub(crate) name: &'static [u8],
    /// The alias, or the name again if there is none.
    pub(crate) alias: &'static [u8],
    /// The number in the prefix, which identifies the method in the C interface.
    pub(crate) number: u32,
    /// The characters with which every setting of the method begins.
    pub(crate) prefix: &'static [u8],
    /// The most bytes of salt that the method keeps.
    pub(crate) salt_limit: usize,
    /// The number of characters of a generated salt.
    pub(crate) made_salt_length: usize,
    /// The number of characters of the packed digest.
    pub(crate) packed_len: usize,
    /// The packed digest's last character has a value below this, since it holds fewer than six bits.
    pub(crate) last_value_limit: u8,
    /// The groups of the packed digest, as indices into the digest.
    pub(crate) groups: &'static [&'static [usize]],
}

impl Method {
    /// Returns the method with this name or alias, or `None` for any other string.
    ///
    /// - Names: `md5crypt`, `sha256crypt`, `sha512crypt`, `scrypt`.
    /// - Aliases: `md5`, `sha-256`, `sha-512`.
    pub fn named(word: &[u8]) -> Option<Method>
        ensures { result ≡ method_named word.now }
    {
        METHODS.iter().copied().find(|method| {
            let row = method.row();
            word == row.name || word == row.alias
        })
    }

    /// Returns the method with this number in its prefix (1, 5, 6 or 7), or `None` for any other number.
    pub fn numbered(number: u32) -> Option<Method>
        ensures { result ≡ method_numbered number }
    {
        METHODS
            .iter()
            .copied()
            .find(|method| number == method.row().number)
    }

    /// Returns the number in the method's prefix. [`numbered`](Method::numbered) finds the method by it.
    pub fn number(self) -> u32
        ensures { result ≡ (method_row self).number }
    {
        self.row().number
    }

    /// Returns the name of the method. [`named`](Method::named) finds the method by it.
    pub fn name(self) -> &'static [u8]
        ensures { result.now ≡ (method_row self).name }
    {
        self.row().name
    }

    /// Returns the method's row of the table.
    pub(crate) fn row(self) -> MethodRow
        ensures name { result.name.now ≡ (method_row self).name }
        ensures alias { result.alias.now ≡ (method_row self).alias }
        ensures number { result.number ≡ (method_row self).number }
        ensures prefix { result.prefix.now ≡ prefix self }
        ensures kept { result.salt_limit ≡ salt_limit self }
        ensures made { result.made_salt_length ≡ made_salt_length self }
        ensures packed { result.packed_len ≡ packed_len self }
        ensures last { result.last_value_limit ≡ last_value_limit self }
        ensures groups { groups_in result.groups.now ≡ groups_of self }
    {
        match self {
            Method::Md5crypt => MethodRow {
                name: b"md5crypt",
                alias: b"md5",
                number: 1,
                prefix: b"$1$",
                salt_limit: MD5CRYPT_SALT_LIMIT,
                made_salt_length: MD5CRYPT_SALT_LIMIT,
                packed_len: MD5CRYPT_PACKED_LEN,
                last_value_limit: 4,
                groups: &MD5CRYPT_GROUPS,
            },
            Method::Sha256crypt => MethodRow {
                name: b"sha256crypt",
                alias: b"sha-256",
                number: 5,
                prefix: b"$5$",
                salt_limit: SHACRYPT_SALT_LIMIT,
                made_salt_length: SHACRYPT_SALT_LIMIT,
                packed_len: SHA256CRYPT_PACKED_LEN,
                last_value_limit: 16,
                groups: &SHA256CRYPT_GROUPS,
            },
            Method::Sha512crypt => MethodRow {
                name: b"sha512crypt",
                alias: b"sha-512",
                number: 6,
                prefix: b"$6$",
                salt_limit: SHACRYPT_SALT_LIMIT,
                made_salt_length: SHACRYPT_SALT_LIMIT,
                packed_len: SHA512CRYPT_PACKED_LEN,
                last_value_limit: 4,
                groups: &SHA512CRYPT_GROUPS,
            },
            Method::Scrypt => MethodRow {
                name: b"scrypt",
                alias: b"scrypt",
                number: 7,
                prefix: b"$7$",
                salt_limit: SCRYPT_SALT_LIMIT,
                made_salt_length: MADE_SALT_LIMIT,
                packed_len: SCRYPT_PACKED_LEN,
                last_value_limit: 16,
                groups: &SCRYPT_GROUPS,
            },
        }
    }
}
