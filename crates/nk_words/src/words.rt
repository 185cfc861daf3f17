//! The commands, read by `clap` with help and version switched off.
ghost use Rattle.std.specs.Prelude.{◌≡◌, IfOk, None, codes, fold, if◌then◌else◌, option_map, map, false};
ghost use Rattle.std.specs.Str.{bytes_eq};
ghost use Rattle.clap.specs.declared.builder.command.Command.TheViews.{out-Command as fields_of};
ghost use Rattle.clap.specs.Matches.{found_of};
ghost use Rattle.clap.specs.Simple.{app_of, subcommand_rows_of, with_rule};
ghost use Rattle.clap.specs.Walk.{first_of, rows_of};
ghost use Rattle.nk_words.specs.App.{with_leaf, leaf_app, nk_app, nk_top, nk_without_generation, nk_without_queries, wanted_argument};
ghost use Rattle.nk_words.specs.Words.{IsWithinLimits, Reads, command_found, command_of, command_with, compact_of, compile_of};
ghost use Rattle.nk_words.specs.Words.{apart_of, check_apart_of, check_of, check_waypoint_of, equal_of, fly_of};
ghost use Rattle.nk_words.specs.Words.{gen_of, job_of, network_numbers};
ghost use Rattle.nk_words.specs.Words.{four_texts, argument_number, texts, three_texts, trace_of, update_of, virtual_of, waypoint_of};

use crate::Bytes;
use crate::number::number_from;
use clap::error::ErrorKind;
use clap::{Arg, ArgMatches};
use std::alloc::{AllocError, Global};
use thiserror::Error;

/// What the words ask for.
pub enum Command {
    /// `compile NAME`: the table of every switch for the policy of this name.
    Compile(Bytes),
    /// `trace HOPS PACKET`: the histories with which the packet leaves after at most so many link crossings, from 0 to
    /// 65535. The packet is a text such as `sw=1,pt=2,dst=3`.
    Trace(u64, Bytes),
    /// `equal LEFT RIGHT`: whether the policies of these names do the same.
    Equal(Bytes, Bytes),
    /// `check LEFT RIGHT`: whether a certificate shows that the policies of these names do the same.
    Check(Bytes, Bytes),
    /// `fly SEED STEPS PACKET`: what has left after so many turns of the switches, 0 to 1000000, whose order is drawn
    /// from the seed, 1 to 2147483646. The packet is a text such as `sw=1,pt=2,dst=3`.
    Fly(u64, u64, Bytes),
    /// `apart NAME A B`: whether no history of the policy leads from a packet of predicate A to one of B.
    Apart(Bytes, Bytes, Bytes),
    /// `waypoint NAME A W B`: whether each history of the policy that leads from a packet of A to one of B has a packet
    /// of W.
    Waypoint(Bytes, Bytes, Bytes, Bytes),
    /// `check_apart NAME A B`: whether a certificate shows what `apart` asks.
    CheckApart(Bytes, Bytes, Bytes),
    /// `check_waypoint NAME A W B`: whether a certificate shows what `waypoint` asks.
    CheckWaypoint(Bytes, Bytes, Bytes, Bytes),
    /// `gen SIZE SEED`: the text of a program with so many switches, 2 to 1000, made by draws from the seed, 1 to
    /// 2147483646.
    Gen(u64, u64),
    /// `job SIZE SEED`: the counts of what belongs to that program's tables, and to the certificate that two of its
    /// policies do the same.
    Job(u64, u64),
    /// `update OLD NEW SEED STEPS PACKET`: what has left after so many turns, 0 to 1000000, in which the tables of the
    /// new policy take the place of the old one's; what happens in each is drawn from the seed, 1 to 2147483646. The
    /// packet is a text such as `sw=1,pt=2,dst=3`.
    Update(Bytes, Bytes, u64, u64, Bytes),
    /// `compact NAME`: the table of every switch for the policy of this name, with one tag for all tag sets
    /// after which the same histories are left.
    Compact(Bytes),
    /// `virtual NAME`: the table of every switch for the physical policy of the virtual one of this name, with each virtual
    /// link by its fabric.
    Virtual(Bytes),
}

impl Drop for Command {
    fn drop(self) {
        match self {
            Command::Compile(_) => {}
            Command::Trace(_, _) => {}
            Command::Equal(_, _) => {}
            Command::Check(_, _) => {}
            Command::Fly(_, _, _) => {}
            Command::Apart(_, _, _) => {}
            Command::Waypoint(_, _, _, _) => {}
            Command::CheckApart(_, _, _) => {}
            Command::CheckWaypoint(_, _, _, _) => {}
            Command::Gen(_, _) => {}
            Command::Job(_, _) => {}
            Command::Update(_, _, _, _, _) => {}
            Command::Compact(_) => {}
            Command::Virtual(_) => {}
        }
    }
}

/// Why the words give no command.
#[derive(Clone, Copy, Debug, PartialEq, Eq, Error)]
pub enum WordsError {
    /// There is not enough memory.
    #[error("no memory")]
    NoMemory,
    /// The words are not those of a command.
    #[error("usage")]
    Usage,
}

/// The command with one more argument, which is wanted.
fn with_wanted<'a>(
    alloc: Global,
    command: clap::Command<'a>,
    name: &'a str,
) -> Result<clap::Command<'a>, AllocError>
    ensures app { IfOk result (λ c.
        app_of c ≡ with_rule (app_of command.entry) (wanted_argument name.entry.now)) }
    ensures local { IfOk result (λ c.
        (fields_of c).has_globals ≡ (fields_of command.entry).has_globals) }
{
    let argument = Arg::new(alloc, name).required(true);
    command.arg(argument)
}

/// A command of this name with so many arguments, each of which is wanted.
fn leaf<'a>(
    alloc: Global,
    name: &'a str,
    arguments: &[&'a str],
) -> Result<clap::Command<'a>, AllocError>
    ensures app { IfOk result (λ c.
        app_of c ≡ leaf_app name.entry.now (map (λ a. a.now) arguments.entry.now)) }
    ensures local { IfOk result (λ c. (fields_of c).has_globals ≡ false) }
{
    let mut command = clap::Command::new(alloc, name);
    for argument in arguments {
        command = with_wanted(alloc, command, argument)?;
    }
    Ok(command)
}

/// The command with one more subcommand, of this name and with so many arguments.
fn with_leaf<'a>(
    alloc: Global,
    command: clap::Command<'a>,
    named: &(&'a str, &[&'a str]),
) -> Result<clap::Command<'a>, AllocError>
    ensures { IfOk result (λ c. app_of c ≡ with_leaf (app_of command.entry) named.now) }
{
    let subcommand = leaf(alloc, named.0, named.1)?;
    command.subcommand(subcommand)
}

/// The command with these subcommands more, each of its name and with its arguments.
fn with_leaves<'a>(
    alloc: Global,
    command: clap::Command<'a>,
    leaves: &[(&'a str, &[&'a str])],
) -> Result<clap::Command<'a>, AllocError>
    ensures { IfOk result (λ c. app_of c ≡ fold with_leaf (app_of command.entry) leaves.now) }
{
    let mut app = command;
    for leaf in leaves {
        app = with_leaf(alloc, app, leaf)?;
    }
    Ok(app)
}

/// The program without its commands.
fn top<'a>(alloc: Global) -> clap::Command<'a>
    ensures { app_of result ≡ nk_top }
{
    clap::Command::new(alloc, "nk")
        .no_binary_name(true)
        .disable_help_flag(true)
        .disable_help_subcommand(true)
        .disable_version_flag(true)
        .subcommand_required(true)
}

/// The program with the commands about one policy's tables and about two policies.
#[tactic(auto, unfolding(crate::specs::App::nk_without_queries))]
fn with_policies<'a>(
    alloc: Global,
    command: clap::Command<'a>,
) -> Result<clap::Command<'a>, AllocError>
    requires { app_of command ≡ nk_top }
    ensures { IfOk result (λ c. app_of c ≡ nk_without_queries) }
{
    with_leaves(
        alloc,
        command,
        &[
            ("compile", &["NAME"]),
            ("trace", &["HOPS", "PACKET"]),
            ("equal", &["LEFT", "RIGHT"]),
            ("check", &["LEFT", "RIGHT"]),
            ("fly", &["SEED", "STEPS", "PACKET"]),
        ],
    )
}

/// The program with these and the commands about queries.
#[tactic(auto, unfolding(crate::specs::App::nk_without_generation, crate::specs::App::nk_without_queries))]
fn with_queries<'a>(
    alloc: Global,
    command: clap::Command<'a>,
) -> Result<clap::Command<'a>, AllocError>
    requires { app_of command ≡ nk_without_queries }
    ensures { IfOk result (λ c. app_of c ≡ nk_without_generation) }
{
    with_leaves(
        alloc,
        command,
        &[
            ("apart", &["NAME", "A", "B"]),
            ("waypoint", &["NAME", "A", "W", "B"]),
            ("check_apart", &["NAME", "A", "B"]),
            ("check_waypoint", &["NAME", "A", "W", "B"]),
        ],
    )
}

/// The program with these and the commands about networks, updates, tags and fabrics.
#[tactic(auto, unfolding(crate::specs::App::nk_app, crate::specs::App::nk_without_generation, crate::specs::App::nk_without_queries))]
fn with_generation<'a>(
    alloc: Global,
    command: clap::Command<'a>,
) -> Result<clap::Command<'a>, AllocError>
    requires { app_of command ≡ nk_without_generation }
    ensures { IfOk result (λ c. app_of c ≡ nk_app) }
{
    with_leaves(
        alloc,
        command,
        &[
            ("gen", &["SIZE", "SEED"]),
            ("job", &["SIZE", "SEED"]),
            ("update", &["OLD", "NEW", "SEED", "STEPS", "PACKET"]),
            ("compact", &["NAME"]),
            ("virtual", &["NAME"]),
        ],
    )
}

/// The program with all of its commands.
fn application<'a>(alloc: Global) -> Result<clap::Command<'a>, AllocError>
    ensures { IfOk result (λ c. app_of c ≡ nk_app) }
{
    let app = with_policies(alloc, top(alloc))?;
    let app = with_queries(alloc, app)?;
    with_generation(alloc, app)
}

/// The command that the words give. `Usage` comes exactly where they give none.
pub fn read_words(alloc: Global, words: &[String]) -> Result<Command, WordsError>
    ensures reads { Reads (command_of (texts words.now)) result }
    ensures limits { IfOk result IsWithinLimits }
{
    let Ok(application) = application(alloc) else {
        return Err(WordsError::NoMemory);
    };
    match application.try_get_matches_from(words) {
        Ok(matches) => command_in(alloc, &matches),
        Err(error) if error.kind() == ErrorKind::OutOfMemory => Err(WordsError::NoMemory),
        Err(_) => Err(WordsError::Usage),
    }
}

/// The command of the subcommand that was found.
fn command_in(alloc: Global, matches: &ArgMatches) -> Result<Command, WordsError>
    ensures { Reads (command_found (subcommand_rows_of matches.now)) result }
{
    match matches.subcommand() {
        Some((name, found)) => command_named(alloc, name, found),
        None => Err(WordsError::Usage),
    }
}

/// The command of this name, with the arguments that were found.
fn command_named(alloc: Global, name: &str, found: &ArgMatches) -> Result<Command, WordsError>
    ensures { Reads (command_with name.now (rows_of (found_of found.now))) result }
{
    if name == "compile" {
        compile(alloc, found)
    } else if name == "trace" {
        trace(alloc, found)
    } else if name == "equal" {
        equal(alloc, found)
    } else if name == "check" {
        check(alloc, found)
    } else if name == "fly" {
        fly(alloc, found)
    } else {
        query_named(alloc, name, found)
    }
}

/// The command of this name, with the arguments that were found. The name is none of the commands about tables and about two
/// policies.
fn query_named(alloc: Global, name: &str, found: &ArgMatches) -> Result<Command, WordsError>
    ensures { Reads (if bytes_eq name.now (codes "apart") then apart_of
        (rows_of (found_of found.now))
        else if bytes_eq name.now (codes "waypoint") then waypoint_of (rows_of (found_of found.now))
        else if bytes_eq name.now (codes "check_apart") then check_apart_of
        (rows_of (found_of found.now))
        else if bytes_eq name.now (codes "check_waypoint") then check_waypoint_of
        (rows_of (found_of found.now))
        else if bytes_eq name.now (codes "gen") then gen_of (rows_of (found_of found.now))
        else if bytes_eq name.now (codes "job") then job_of (rows_of (found_of found.now))
        else if bytes_eq name.now (codes "update") then update_of (rows_of (found_of found.now))
        else if bytes_eq name.now (codes "compact") then compact_of (rows_of (found_of found.now))
        else if bytes_eq name.now (codes "virtual") then virtual_of (rows_of (found_of found.now))
        else None) result }
{
    if name == "apart" {
        apart(alloc, found)
    } else if name == "waypoint" {
        waypoint(alloc, found)
    } else if name == "check_apart" {
        check_apart(alloc, found)
    } else if name == "check_waypoint" {
        check_waypoint(alloc, found)
    } else {
        network_named(alloc, name, found)
    }
}

/// The command of this name, with the arguments that were found. The name is none of the commands about tables, about two
/// policies and about queries.
fn network_named(alloc: Global, name: &str, found: &ArgMatches) -> Result<Command, WordsError>
    ensures { Reads (if bytes_eq name.now (codes "gen") then gen_of (rows_of (found_of found.now))
        else if bytes_eq name.now (codes "job") then job_of (rows_of (found_of found.now))
        else if bytes_eq name.now (codes "update") then update_of (rows_of (found_of found.now))
        else if bytes_eq name.now (codes "compact") then compact_of (rows_of (found_of found.now))
        else if bytes_eq name.now (codes "virtual") then virtual_of (rows_of (found_of found.now))
        else None) result }
{
    if name == "gen" {
        generate(found)
    } else if name == "job" {
        job(found)
    } else if name == "update" {
        update(alloc, found)
    } else if name == "compact" {
        compact(alloc, found)
    } else if name == "virtual" {
        over_fabrics(alloc, found)
    } else {
        Err(WordsError::Usage)
    }
}

/// `compile NAME`.
fn compile(alloc: Global, found: &ArgMatches) -> Result<Command, WordsError>
    ensures { Reads (compile_of (rows_of (found_of found.now))) result }
{
    let name = text(alloc, found, "NAME")?;
    Ok(Command::Compile(name))
}

/// `trace HOPS PACKET`.
fn trace(alloc: Global, found: &ArgMatches) -> Result<Command, WordsError>
    ensures { Reads (trace_of (rows_of (found_of found.now))) result }
{
    let hops = number_at(found, "HOPS", 0, 65535)?;
    let packet = text(alloc, found, "PACKET")?;
    Ok(Command::Trace(hops, packet))
}

/// `equal LEFT RIGHT`.
fn equal(alloc: Global, found: &ArgMatches) -> Result<Command, WordsError>
    ensures { Reads (equal_of (rows_of (found_of found.now))) result }
{
    let left = text(alloc, found, "LEFT")?;
    let right = text(alloc, found, "RIGHT")?;
    Ok(Command::Equal(left, right))
}

/// `check LEFT RIGHT`.
fn check(alloc: Global, found: &ArgMatches) -> Result<Command, WordsError>
    ensures { Reads (check_of (rows_of (found_of found.now))) result }
{
    let left = text(alloc, found, "LEFT")?;
    let right = text(alloc, found, "RIGHT")?;
    Ok(Command::Check(left, right))
}

/// `fly SEED STEPS PACKET`.
fn fly(alloc: Global, found: &ArgMatches) -> Result<Command, WordsError>
    ensures { Reads (fly_of (rows_of (found_of found.now))) result }
{
    let seed = number_at(found, "SEED", 1, 2147483646)?;
    let steps = number_at(found, "STEPS", 0, 1000000)?;
    let packet = text(alloc, found, "PACKET")?;
    Ok(Command::Fly(seed, steps, packet))
}

/// `apart NAME A B`.
fn apart(alloc: Global, found: &ArgMatches) -> Result<Command, WordsError>
    ensures { Reads (apart_of (rows_of (found_of found.now))) result }
{
    let (name, from, target) = three(alloc, found)?;
    Ok(Command::Apart(name, from, target))
}

/// `waypoint NAME A W B`.
fn waypoint(alloc: Global, found: &ArgMatches) -> Result<Command, WordsError>
    ensures { Reads (waypoint_of (rows_of (found_of found.now))) result }
{
    let (name, from, middle, target) = four(alloc, found)?;
    Ok(Command::Waypoint(name, from, middle, target))
}

/// `check_apart NAME A B`.
fn check_apart(alloc: Global, found: &ArgMatches) -> Result<Command, WordsError>
    ensures { Reads (check_apart_of (rows_of (found_of found.now))) result }
{
    let (name, from, target) = three(alloc, found)?;
    Ok(Command::CheckApart(name, from, target))
}

/// `check_waypoint NAME A W B`.
fn check_waypoint(alloc: Global, found: &ArgMatches) -> Result<Command, WordsError>
    ensures { Reads (check_waypoint_of (rows_of (found_of found.now))) result }
{
    let (name, from, middle, target) = four(alloc, found)?;
    Ok(Command::CheckWaypoint(name, from, middle, target))
}

/// `gen SIZE SEED`.
fn generate(found: &ArgMatches) -> Result<Command, WordsError>
    ensures { Reads (gen_of (rows_of (found_of found.now))) result }
{
    let (size, seed) = size_and_seed(found)?;
    Ok(Command::Gen(size, seed))
}

/// `job SIZE SEED`.
fn job(found: &ArgMatches) -> Result<Command, WordsError>
    ensures { Reads (job_of (rows_of (found_of found.now))) result }
{
    let (size, seed) = size_and_seed(found)?;
    Ok(Command::Job(size, seed))
}

/// `update OLD NEW SEED STEPS PACKET`.
fn update(alloc: Global, found: &ArgMatches) -> Result<Command, WordsError>
    ensures { Reads (update_of (rows_of (found_of found.now))) result }
{
    let old = text(alloc, found, "OLD")?;
    let new = text(alloc, found, "NEW")?;
    let seed = number_at(found, "SEED", 1, 2147483646)?;
    let steps = number_at(found, "STEPS", 0, 1000000)?;
    let packet = text(alloc, found, "PACKET")?;
    Ok(Command::Update(old, new, seed, steps, packet))
}

/// `compact NAME`.
fn compact(alloc: Global, found: &ArgMatches) -> Result<Command, WordsError>
    ensures { Reads (compact_of (rows_of (found_of found.now))) result }
{
    let name = text(alloc, found, "NAME")?;
    Ok(Command::Compact(name))
}

/// `virtual NAME`.
fn over_fabrics(alloc: Global, found: &ArgMatches) -> Result<Command, WordsError>
    ensures { Reads (virtual_of (rows_of (found_of found.now))) result }
{
    let name = text(alloc, found, "NAME")?;
    Ok(Command::Virtual(name))
}

/// The numbers of the arguments `SIZE SEED`.
fn size_and_seed(found: &ArgMatches) -> Result<(u64, u64), WordsError>
    ensures { Reads (network_numbers (rows_of (found_of found.now))) result }
{
    let size = number_at(found, "SIZE", 2, 1000)?;
    let seed = number_at(found, "SEED", 1, 2147483646)?;
    Ok((size, seed))
}

/// The texts of the arguments `NAME A B`.
fn three(alloc: Global, found: &ArgMatches) -> Result<(Bytes, Bytes, Bytes), WordsError>
    ensures { Reads (three_texts (rows_of (found_of found.now))) result }
{
    let name = text(alloc, found, "NAME")?;
    let from = text(alloc, found, "A")?;
    let target = text(alloc, found, "B")?;
    Ok((name, from, target))
}

/// The texts of the arguments `NAME A W B`.
fn four(alloc: Global, found: &ArgMatches) -> Result<(Bytes, Bytes, Bytes, Bytes), WordsError>
    ensures { Reads (four_texts (rows_of (found_of found.now))) result }
{
    let (name, from, target) = three(alloc, found)?;
    let middle = text(alloc, found, "W")?;
    Ok((name, from, middle, target))
}

/// The word of an argument.
fn word<'a>(found: &ArgMatches<'a>, id: &str) -> Option<&'a str>
    ensures { option_map (λ w. w.now) result ≡ first_of id.now (rows_of (found_of found.now)) }
{
    found.get_str(id)
}

/// The text of an argument.
fn text(alloc: Global, found: &ArgMatches, id: &str) -> Result<Bytes, WordsError>
    ensures { Reads (first_of id.now (rows_of (found_of found.now))) result }
{
    match word(found, id) {
        Some(value) => match Bytes::of_text(alloc, value) {
            Ok(bytes) => Ok(bytes),
            Err(AllocError) => Err(WordsError::NoMemory),
        },
        None => Err(WordsError::Usage),
    }
}

/// The number of an argument, from the least one to the largest one.
fn number_at(found: &ArgMatches, id: &str, least: u64, largest: u64) -> Result<u64, WordsError>
    ensures { Reads (argument_number id.now least largest (rows_of (found_of found.now))) result }
{
    match word(found, id) {
        Some(value) => match number_from(value, least, largest) {
            Some(number) => Ok(number),
            None => Err(WordsError::Usage),
        },
        None => Err(WordsError::Usage),
    }
}
