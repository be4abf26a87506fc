//! The arguments after the program's name: the command with which `clap` parses them, and the plan that they ask for.
//! If they break several rules, the first rule in a fixed order gives the error. Only `OutOfMemory` has no place in
//! this order: it is returned as soon as an allocation fails.
ghost use Rattle.std.specs.Prelude.{◌^◌, ◌≡◌, ◌≢◌, List, [], None, Some, codes, map, string_bytes, IfErr, IfOk};
ghost use Rattle.clap.specs.Words.{app_of, fault_of, first_of, kind_of, matches_of, rule_of};
ghost use Rattle.run_core.specs.Makers.{bytes_of};
ghost use Rattle.crypt_core.specs.Methods.{method_named};
ghost use Rattle.mkpasswd.specs.Options.{IsMaker, IsPlan, Plans, Refuses, command, flag_rule, given_salt, is_set, job_rounds, number_in, option_rule, type_of, value_rule};
ghost use Rattle.mkpasswd.specs.Private.Options.{ChecksRule, HasRule, IsNumber};

use crate::fault::UsageFault;
use crate::plan::{Job, Maker, PasswordFrom, Plan};
use clap::builder::ValueParser;
use clap::error::ErrorKind;
use clap::{Arg, ArgAction, ArgMatches, Command, value_parser};
use crypt_core::method::Method;
use crypt_core::version::VERSION;
use std::alloc::{AllocError, Global};
use std::marker::Model;

// The value of `-m TYPE` if `-m` is not given.
const DEFAULT_TYPE: &str = "sha512crypt";

// The texts of help: its first line, one text for each argument, and its last line.
const ABOUT: &str =
    "Prints a password's crypt(5) hash, and hashes, checks or audits lines of a file";

const METHOD_HELP: &str =
    "The method: md5crypt, sha256crypt, sha512crypt (the\ndefault) or scrypt; help lists them";

const SALT_HELP: &str =
    "The salt: up to 8 (md5crypt), 16 or 86 (scrypt)\nletters, digits, '.' and '/'; else a new one";

const ROUNDS_HELP: &str =
    "The cost: for sha256crypt and sha512crypt rounds, give\n656000 for a hash to store (default 5000, with --audit\n656000); for scrypt 6 to 11 (default 7); 0: default";

const STDIN_HELP: &str =
    "The password is the first line of standard input,\nand empty without any input";

const BATCH_HELP: &str = "Hash the password of each line of standard input:\nname:password";

const CHECK_HELP: &str = "Check the password of each line of standard input:\nname:field:password";

const AUDIT_HELP: &str =
    "Audit each line name:field of standard input, such as\n/etc/shadow: is its hash current, outdated (by -m, -R),\ndead, over budget, ..; status 1 if one needs care";

const REHASH_HELP: &str =
    "With --check, a new hash for each password that matches\na hash of another method or a lower cost";

const WORK_HELP: &str = "Show what the hash cost: digests, bytes, mixings,\nbytes of table";

const BUDGET_HELP: &str =
    "What a line may cost, in bytes digested and mixed\n(default: any; with --audit by -m and -R)";

const FIRST_LINE_HELP: &str = "The number of the first line in messages about lines";

const PASSWORD_HELP: &str = "The password, of at most 1,024 bytes; without it, as with --stdin";

const SALT_WORD_HELP: &str = "The salt, in place of --salt";

const AFTER_HELP: &str = "Pass a password that begins with '-' by --stdin.";

// What `clap` found in the arguments. Contracts see it as a list of rows, one for each argument that is given.
#[derive(Drop)]
struct Arguments<'a> {
    matches: ArgMatches<'a>,
}

impl<'a> Model for Arguments<'a> {
    ghost use Rattle.std.specs.Prelude.{List};
    ghost use Rattle.clap.specs.Words.{Row, found_of, rows_of};
    ghost use Rattle.mkpasswd.specs.Private.Options.{HavePassed};

    ghost Value = { List Row };

    ghost view = { λ a. rows_of (found_of a.matches) };

    ghost invariant = { λ a. HavePassed a.matches };
}

impl<'a> Arguments<'a> {
    // Returns the value of the option or operand with this id, if it is given.
    fn text(&self, id: &str) -> Option<&'a str>
        ensures { bytes_of result ≡ first_of id.now self.now }
    {
        self.matches.get_str(id)
    }

    // Returns whether the flag with this id is given. It does not use `get_flag`, whose contract covers only values
    // that are a `bool`.
    fn has(&self, id: &str) -> bool
        ensures { result ≡ is_set id.now self.now }
    {
        self.matches.get_one(id).unwrap_or(false)
    }

    // Returns the number of an option that accepts only numbers below 2^32, if it is given.
    fn number32(&self, id: &str) -> Option<u32>
        requires { IsNumber (2 ^ 32) id.now }
        ensures { result ≡ number_in id.now self.now }
    {
        self.matches.get_one(id)
    }

    // Returns the number of an option that accepts only numbers below 2^64, if it is given.
    fn number64(&self, id: &str) -> Option<u64>
        requires { IsNumber (2 ^ 64) id.now }
        ensures { result ≡ number_in id.now self.now }
    {
        self.matches.get_one(id)
    }

    // Returns the name of the method: the value of `-m TYPE`, or its default.
    fn type_name(&self) -> &'a str
        ensures { result.now ≡ type_of self.now }
    {
        self.text("method").unwrap_or(DEFAULT_TYPE)
    }
}

/// Returns the plan that the arguments after the program's name ask for.
///
/// TYPE `help` asks for the list of the methods, whatever else is given. For example, `-m help` makes the plan
/// `Plan::Methods`, and `--check --work` makes `Plan::Check` with the default method.
///
/// # Errors
///
/// The error is that of the first rule that the arguments break:
///
/// - `Parse`: `clap` refuses the arguments, or they ask for help or the version.
/// - `Method`: TYPE names no method, and is not `help`.
/// - `TwoSalts`: the salt is given with `-S` and as an argument.
/// - `TwoModes`: more than one of PASSWORD, `-s`, `--batch`, `--check` and `--audit` is given.
/// - `Make`: [`Maker::new`] refuses the method, the rounds and the salt.
///
/// If an allocation fails, the error is `OutOfMemory`, and later rules are not checked.
pub fn plan(alloc: Global, words: &[String]) -> Result<Plan, UsageFault>
    ensures { Plans (map string_bytes words.now) result }
{
    let given = parse(alloc, words)?;
    if given.type_name() == "help" {
        return Ok(Plan::Methods);
    }
    let method = known_method(&given)?;
    let salt = one_salt(&given)?;
    one_mode(&given)?;
    let maker = Maker::new(method, job_rounds(&given, method), salt)?;
    Ok(planned(alloc, &given, maker)?)
}

// Parses the arguments. The error is `clap`'s own; its kind is `OutOfMemory` if an allocation failed.
fn parse<'a>(alloc: Global, arguments: &'a [String]) -> Result<Arguments<'a>, clap::Error>
    ensures ok { IfOk result (λ given. (fault_of command (map string_bytes arguments.entry.now) ≡ [])
        × (given ≡ matches_of command (map string_bytes arguments.entry.now))) }
    ensures err { IfErr result (λ error. kind_of error ≢ ErrorKind.OutOfMemory
        → Refuses (map string_bytes arguments.entry.now) error) }
{
    let matches = command(alloc)?.try_get_matches_from(arguments)?;
    Ok(Arguments { matches })
}

// Returns the method that the value of `-m TYPE` names.
fn known_method(given: &Arguments<'_>) -> Result<Method, UsageFault>
    ensures known { IfOk result (λ method. method_named (type_of given.now) ≡ Some method) }
    ensures rule { ChecksRule given.now UsageFault.Method result }
{
    Method::named(given.type_name().as_bytes()).ok_or(UsageFault::Method)
}

// Returns the salt, which can be given with `-S` or as an argument, but not both.
fn one_salt<'a>(given: &Arguments<'a>) -> Result<Option<&'a [u8]>, UsageFault>
    ensures once { IfOk result (λ salt. bytes_of salt ≡ given_salt given.now) }
    ensures rule { ChecksRule given.now UsageFault.TwoSalts result }
{
    match (given.text("salt"), given.text("salt-word")) {
        (Some(_), Some(_)) => Err(UsageFault::TwoSalts),
        (Some(salt), None) | (None, Some(salt)) => Ok(Some(salt.as_bytes())),
        (None, None) => Ok(None),
    }
}

// Checks that at most one mode is given.
fn one_mode(given: &Arguments<'_>) -> Result<(), UsageFault>
    ensures rule { ChecksRule given.now UsageFault.TwoModes result }
{
    let password = u32::from(given.text("password").is_some());
    let stdin = u32::from(given.has("stdin"));
    let batch = u32::from(given.has("batch"));
    let check = u32::from(given.has("check"));
    let audit = u32::from(given.has("audit"));
    if password + stdin + batch + check + audit > 1 {
        return Err(UsageFault::TwoModes);
    }
    Ok(())
}

// Returns the rounds of the job. An audit without `-R`, or with `-R 0`, uses the method's recommended rounds.
fn job_rounds(given: &Arguments<'_>, method: Method) -> u32
    ensures { result ≡ job_rounds method given.now }
{
    let rounds = given.number32("rounds").unwrap_or(0);
    if given.has("audit") {
        method.chosen_rounds(rounds)
    } else {
        rounds
    }
}

// Returns the plan of arguments that break no rule.
fn planned(alloc: Global, given: &Arguments<'_>, maker: Maker) -> Result<Plan, AllocError>
    ensures { IsMaker given.now maker → IfOk result (IsPlan given.now) }
{
    let job = Job {
        maker,
        rehash: given.has("rehash"),
        work: given.has("work"),
        budget: given.number64("budget"),
        first_line: given.number32("first-line").unwrap_or(1),
    };
    if let Some(password) = given.text("password") {
        let bytes = Vec::from_slice(alloc, password.as_bytes())?;
        return Ok(Plan::One(job, PasswordFrom::Word(bytes)));
    }
    if given.has("batch") {
        return Ok(Plan::Batch(job));
    }
    if given.has("check") {
        return Ok(Plan::Check(job));
    }
    if given.has("audit") {
        return Ok(Plan::Audit(job));
    }
    Ok(Plan::One(job, PasswordFrom::Input))
}

// Returns the command with which `clap` parses the arguments, including the texts of its help.
fn command<'a>(alloc: Global) -> Result<Command<'a>, AllocError>
    ensures { IfOk result (λ made. app_of made ≡ command) }
{
    let method = option(alloc, "method", Some('m'), "TYPE", METHOD_HELP);
    let salt = option(alloc, "salt", Some('S'), "SALT", SALT_HELP);
    let rounds = number(alloc, "rounds", Some('R'), value_parser!(u32), ROUNDS_HELP);
    let stdin = flag(alloc, "stdin", Some('s'), STDIN_HELP);
    let batch = flag(alloc, "batch", None, BATCH_HELP);
    let check = flag(alloc, "check", None, CHECK_HELP);
    let audit = flag(alloc, "audit", None, AUDIT_HELP);
    let rehash = flag(alloc, "rehash", None, REHASH_HELP);
    let work = flag(alloc, "work", None, WORK_HELP);
    let budget = number(alloc, "budget", None, value_parser!(u64), BUDGET_HELP);
    // `value_parser!(u32)` would accept 0, but lines are numbered from 1.
    let lines = ValueParser::signed(1, 4_294_967_295);
    let first_line = number(alloc, "first-line", None, lines, FIRST_LINE_HELP);
    let password = operand(alloc, "password", "PASSWORD", PASSWORD_HELP);
    let salt_word = operand(alloc, "salt-word", "SALT", SALT_WORD_HELP);
    let arguments = vec![in alloc;
        method, salt, rounds, stdin, batch, check, audit, rehash, work, budget, first_line,
        password, salt_word,
    ]?;
    Command::new(alloc, "mkpasswd")
        .version(VERSION)
        .about(ABOUT)
        .after_help(AFTER_HELP)
        .no_binary_name(true)
        .args(arguments)
}

// Returns a flag whose long name is its id, and whose short name is the letter, if there is one.
fn flag<'a>(alloc: Global, id: &'a str, letter: Option<char>, help: &'a str) -> Arg<'a>
    ensures { HasRule result (flag_rule id.entry.now letter) }
{
    let arg = Arg::new(alloc, id)
        .long(id)
        .action(ArgAction::SetTrue)
        .help(help);
    lettered(arg, letter)
}

// Returns an option with one value. Its long name is its id, and its short name is the letter, if there is one.
fn option<'a>(
    alloc: Global,
    id: &'a str,
    letter: Option<char>,
    value_name: &'a str,
    help: &'a str,
) -> Arg<'a>
    ensures { HasRule result (option_rule id.entry.now letter) }
{
    lettered(operand(alloc, id, value_name, help).long(id), letter)
}

// Returns an option whose value is a number.
fn number<'a>(
    alloc: Global,
    id: &'a str,
    letter: Option<char>,
    parser: ValueParser<'a>,
    help: &'a str,
) -> Arg<'a>
    ensures { HasRule result (record (option_rule id.entry.now letter) { parser = Some parser.entry }) }
{
    option(alloc, id, letter, "NUMBER", help).value_parser(parser)
}

// Returns the argument with this letter as its short name, if there is one.
fn lettered<'a>(arg: Arg<'a>, letter: Option<char>) -> Arg<'a>
    requires { (rule_of arg).short ≡ None }
    ensures rule { rule_of result ≡ record (rule_of arg.entry) { short = letter } }
    ensures local { result.global ≡ arg.entry.global }
{
    match letter {
        Some(letter) => arg.short(letter),
        None => arg,
    }
}

// Returns an argument that takes one value and has no long or short name.
fn operand<'a>(alloc: Global, id: &'a str, value_name: &'a str, help: &'a str) -> Arg<'a>
    ensures { HasRule result (value_rule id.entry.now) }
{
    Arg::new(alloc, id)
        .value_name(value_name)
        .action(ArgAction::Set)
        .help(help)
}
