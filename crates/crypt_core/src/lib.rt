//! Hashing with the schemes of crypt(5): passwords, methods, settings with given or generated salts, the hash of each
//! method, and its work, which is computed before hashing. The crate also checks and audits stored hashes, and has the
//! recommended policy and the version of mkpasswd.
#![tactic(auto)]

pub mod finding;
pub mod fits;
pub mod hash;
pub mod made_salt;
pub mod md5crypt;
pub mod memory;
mod messages;
pub mod method;
pub mod need;
pub mod other_scheme;
pub mod pack;
pub mod password;
pub mod policy;
mod same;
pub mod scheme;
pub mod setting;
pub mod shacrypt;
pub mod standing;
pub mod stored;
pub mod version;
pub mod work;
