//! The plan that the arguments ask for. Most plans contain the job to run.

pub use run_core::job::{Job, Maker, PasswordFrom};

/// The plan that the arguments after the program's name ask for.
#[derive(Drop)]
pub enum Plan {
    /// List the methods.
    Methods,
    /// Hash one password.
    One(Job, PasswordFrom),
    /// Hash the password of each line of the input.
    Batch(Job),
    /// Check the password of each line of the input.
    Check(Job),
    /// Audit the field of each line of the input.
    Audit(Job),
}
