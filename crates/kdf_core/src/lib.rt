//! Key derivation: HMAC (RFC 2104) and PBKDF2 (RFC 8018) over SHA-256, and scrypt (RFC 7914) with its parameters. A
//! meter counts all digests, mixings and memory.
#![tactic(auto)]

pub mod hmac;
pub mod lent;
pub mod params;
pub mod pbkdf2;
mod romix;
pub mod scrypt;
pub mod work;
