//! The lines of an input: `name:password` to hash, `name:field:password` to check, `name:field` to audit. [`inspect`]
//! finds the first rule that a line breaks.
ghost use Rattle.std.specs.Prelude.{◌≡◌, ℕ, List, Some, IfSome, IfNone, MatchOption, IfOk, IfErr, Contains};
ghost use Rattle.run_core.specs.Lines.{HasParts, IsCut, IsLineRefused, IsSound, Parts as LineParts};
ghost use Rattle.run_core.specs.Texts.{colon};
ghost use Rattle.run_core.specs.Makers.{bytes_of};
ghost use Rattle.run_core.specs.Private.Lines.{IsCutOrWhole, IsNamed, parts_of};
ghost use Rattle.run_core.specs.declared.line.Kind.{Kind as LineKind};
ghost use Rattle.run_core.specs.declared.line.LineFault.{LineFault as Refusal};

use crypt_core::password::{Password, PasswordFault};
use crypt_core::setting::SettingFault;
use crypt_core::stored::StoredField;
use thiserror::Error;

/// The maximum length of a line in bytes, without its line feed.
pub const LINE_LIMIT: usize = 2048;

/// The maximum length of a name in bytes.
pub const NAME_LIMIT: usize = 64;

/// What a run does with each line.
#[derive(Clone, Copy, Debug, PartialEq, Eq)]
pub enum Kind {
    /// Hash the password of `name:password`.
    Batch,
    /// Check the password of `name:field:password` against the field.
    Check,
    /// Audit the field of `name:field`. A second colon and anything after it are ignored.
    Audit,
}

/// The reason why a line is refused: the first rule that it breaks, or else its cost. The variants are in the order in
/// which they are checked.
#[derive(Clone, Copy, Debug, PartialEq, Eq, Error)]
#[error("{}", self.text())]
pub enum LineFault {
    /// The line has more than [`LINE_LIMIT`] bytes.
    LineTooLong,
    /// The line is empty or begins with a colon.
    NoName,
    /// The name, which ends at the first colon or at the end of the line, has more than [`NAME_LIMIT`] bytes.
    NameTooLong,
    /// The line has no colon, or only one if it is to be checked.
    NoPassword,
    /// The password is invalid. It is what follows the first colon, or the second colon of a line to check.
    Password(PasswordFault),
    /// The field to check is not empty, does not begin with `!` or `*`, and has no valid setting.
    Setting(SettingFault),
    /// The line can cost more than the budget of the run.
    OverBudget,
}

impl LineFault {
    ghost use Rattle.run_core.specs.Faults.{line_fault_text};

    /// Returns the message to print.
    pub fn text(&self) -> &'static str
        ensures { result.now ≡ line_fault_text self.now }
    {
        match self {
            LineFault::LineTooLong => "line too long",
            LineFault::NoName => "no name",
            LineFault::NameTooLong => "name too long",
            LineFault::NoPassword => "no password field",
            LineFault::Password(fault) => fault.text(),
            LineFault::Setting(fault) => fault.text(),
            LineFault::OverBudget => "over budget",
        }
    }
}

impl From<PasswordFault> for LineFault {
    ghost use Rattle.run_core.specs.declared.line.LineFault.TheVariants.{Password};

    ghost from_gives = { λ fault outer. outer ≡ Password fault };

    fn from(fault: PasswordFault) -> LineFault {
        LineFault::Password(fault)
    }
}

impl From<SettingFault> for LineFault {
    ghost use Rattle.run_core.specs.declared.line.LineFault.TheVariants.{Setting};

    ghost from_gives = { λ fault outer. outer ≡ Setting fault };

    fn from(fault: SettingFault) -> LineFault {
        LineFault::Setting(fault)
    }
}

/// Returns the first rule that a line breaks, or `None` if it breaks none.
///
/// `line` comes without its line feed. The password is checked before the field. An empty field is valid, and so is a
/// locked one, whatever else it contains; in a line to audit any field is valid. The call knows no budget, so it never
/// returns `OverBudget`. It allocates and hashes nothing.
///
/// For example, `inspect(Kind::Batch, b"ann:password")` returns `None`, and `inspect(Kind::Batch, b"ann")` returns
/// `Some(LineFault::NoPassword)`.
pub fn inspect(kind: Kind, line: &[u8]) -> Option<LineFault>
    ensures sound { IfNone result (IsSound kind line.now) }
    ensures refused { IfSome result (IsLineRefused kind line.now) }
    ensures each_refusal { (fault : Refusal) → IsLineRefused kind line.now fault → result ≡ Some fault }
{
    check(kind, line).err()
}

// Checks the rules of a line in order.
fn check(kind: Kind, line: &[u8]) -> Result<(), LineFault>
    ensures sound { IfOk result (λ _. IsSound kind line.now) }
    ensures refused { IfErr result (IsLineRefused kind line.now) }
{
    check_name(line)?;
    let Some(parts) = Parts::of(kind, line) else {
        return Err(LineFault::NoPassword);
    };
    if kind == Kind::Audit {
        return Ok(());
    }
    Password::new(parts.password)?;
    let Some(field) = parts.field else {
        return Ok(());
    };
    StoredField::read(field)?;
    Ok(())
}

// Checks the length of a line, and that it has a name, which is not too long.
fn check_name(line: &[u8]) -> Result<(), LineFault>
    ensures named { IfOk result (λ _. IsNamed line.now) }
    ensures refused { IfErr result (λ fault. (kind : LineKind) → IsLineRefused kind line.now fault) }
{
    if line.len() > LINE_LIMIT {
        return Err(LineFault::LineTooLong);
    }
    let (name, _) = cut_front(line);
    if name.is_empty() {
        return Err(LineFault::NoName);
    }
    if name.len() > NAME_LIMIT {
        return Err(LineFault::NameTooLong);
    }
    Ok(())
}

/// The parts of a line, separated by colons.
#[derive(Drop)]
pub(crate) struct Parts<'a> {
    pub(crate) name: &'a [u8],
    /// The field to check or to audit. A line to hash has none.
    pub(crate) field: Option<&'a [u8]>,
    /// The password. It is empty for a line to audit.
    pub(crate) password: &'a [u8],
}

impl<'a> Parts<'a> {
    /// Splits a line at its first colon, and a line to check or to audit also at its second colon. Returns `None` if a
    /// colon is missing, except the second colon of a line to audit.
    pub(crate) fn of(kind: Kind, line: &'a [u8]) -> Option<Parts<'a>>
        ensures { MatchOption result ((parts : LineParts) → ¬ HasParts kind line.now parts) (λ parts. HasParts kind line.now (parts_of parts)) }
    {
        let (name, back) = cut(line)?;
        match kind {
            Kind::Batch => Some(Parts {
                name,
                field: None,
                password: back,
            }),
            Kind::Check => {
                let (field, password) = cut(back)?;
                Some(Parts {
                    name,
                    field: Some(field),
                    password,
                })
            }
            Kind::Audit => {
                let (field, _) = cut_front(back);
                Some(Parts {
                    name,
                    field: Some(field),
                    password: b"",
                })
            }
        }
    }
}

// Returns the text before the first colon and the text after it, or the whole text and `None` if there is no colon.
fn cut_front(text: &[u8]) -> (&[u8], Option<&[u8]>)
    ensures { IsCutOrWhole text.now result.0.now (bytes_of result.1) }
{
    match cut(text) {
        Some((front, back)) => (front, Some(back)),
        None => (text, None),
    }
}

// Splits a text at its first colon. Returns `None` if it has none.
fn cut(text: &[u8]) -> Option<(&[u8], &[u8])>
    ensures { MatchOption result (¬ Contains text.now colon) (λ parts. IsCut text.now parts.0.now parts.1.now) }
{
    let end = text.iter().position(|byte| *byte == b':')?;
    Some((&text[..end], &text[end + 1..]))
}
