//! The command line that the program takes.

ghost use Rattle.std.specs.Prelude.{◌≡◌, IfOk, false, codes};
ghost use Rattle.clap.specs.Words.{app_of, rule_of, with_rule, with_subcommand};
ghost use Rattle.clap.specs.declared.builder.command.Command.TheViews.{out-Command};
ghost use Rattle.cli_words.specs.App as spec;
ghost use Rattle.cli_words.specs.App.{check_app, flag, gen_app, layout_app, lower_app, compare_app, run_app, the_app, top_app};

use clap::builder::ValueParser;
use clap::{Arg, ArgAction, Command};
use std::alloc::{AllocError, Global};

const MAX_STEPS: u64 = 1000000000;

fn option<'a>(alloc: Global, name: &'a str, value: &'a str, help: &'a str) -> Arg<'a>
    ensures rule { rule_of result ≡ spec.option name.entry.now }
    ensures local { result.global ≡ false }
{
    Arg::new(alloc, name)
        .long(name)
        .value_name(value)
        .help(help)
}

fn required<'a>(alloc: Global, name: &'a str, value: &'a str, help: &'a str) -> Arg<'a>
    ensures rule { rule_of result ≡ spec.required name.entry.now }
    ensures local { result.global ≡ false }
{
    option(alloc, name, value, help).required(true)
}

fn flag<'a>(alloc: Global, name: &'a str, help: &'a str) -> Arg<'a>
    ensures rule { rule_of result ≡ spec.flag name.entry.now }
    ensures local { result.global ≡ false }
{
    Arg::new(alloc, name)
        .long(name)
        .action(ArgAction::SetTrue)
        .help(help)
}

fn steps<'a>(alloc: Global) -> Arg<'a>
    ensures rule { rule_of result ≡ spec.steps }
    ensures local { result.global ≡ false }
{
    option(alloc, "steps", "N", "At most so many steps are made")
        .value_parser(ValueParser::unsigned(0, MAX_STEPS))
        .default_value("1000000")
}

fn numeral<'a>(alloc: Global, name: &'a str, low: u64, high: u64, help: &'a str) -> Arg<'a>
    ensures rule { rule_of result ≡ spec.numeral name.entry.now low high }
    ensures local { result.global ≡ false }
{
    Arg::new(alloc, name)
        .value_name(name)
        .help(help)
        .value_parser(ValueParser::unsigned(low, high))
        .required(true)
}

fn with_arg<'a>(command: Command<'a>, arg: Arg<'a>) -> Result<Command<'a>, AllocError>
    requires plain { (out-Command command).has_globals ≡ false }
    requires local { arg.global ≡ false }
    ensures app { IfOk result (λ r. app_of r ≡ with_rule (app_of command.entry) (rule_of arg.entry)) }
    ensures local { IfOk result (λ r. (out-Command r).has_globals ≡ false) }
{
    command.arg(arg)
}

fn with_command<'a>(command: Command<'a>, inner: Command<'a>) -> Result<Command<'a>, AllocError>
    requires plain { (out-Command command).has_globals ≡ false }
    requires local { (out-Command inner).has_globals ≡ false }
    ensures app { IfOk result (λ r. app_of r ≡ with_subcommand (app_of command.entry) (app_of inner.entry).top) }
    ensures local { IfOk result (λ r. (out-Command r).has_globals ≡ false) }
{
    command.subcommand(inner)
}

fn plain_flag<'a>(alloc: Global) -> Arg<'a>
    ensures rule { rule_of result ≡ flag (codes "plain") }
    ensures local { result.global ≡ false }
{
    flag(alloc, "plain", "Without shared bytes and elision")
}

fn lower_command<'a>(alloc: Global) -> Result<Command<'a>, AllocError>
    ensures app { IfOk result (λ c. app_of c ≡ lower_app) }
    ensures local { IfOk result (λ r. (out-Command r).has_globals ≡ false) }
{
    let command = Command::new(alloc, "lower").about("Lowers the coroutines of a module");
    with_arg(command, plain_flag(alloc))
}

fn check_command<'a>(alloc: Global) -> Result<Command<'a>, AllocError>
    ensures app { IfOk result (λ c. app_of c ≡ check_app) }
    ensures local { IfOk result (λ r. (out-Command r).has_globals ≡ false) }
{
    let command = Command::new(alloc, "check").about("Looks whether a module breaks a rule");
    let lowered = flag(
        alloc,
        "lowered",
        "By the rules of a module without coroutines",
    );
    with_arg(command, lowered)
}

fn layout_command<'a>(alloc: Global) -> Result<Command<'a>, AllocError>
    ensures app { IfOk result (λ c. app_of c ≡ layout_app) }
    ensures local { IfOk result (λ r. (out-Command r).has_globals ≡ false) }
{
    let command = Command::new(alloc, "layout").about("Shows where the fields of frames lie");
    with_arg(command, plain_flag(alloc))
}

fn with_entry<'a>(alloc: Global, command: Command<'a>) -> Result<Command<'a>, AllocError>
    requires { (out-Command command).has_globals ≡ false }
    ensures app { IfOk result (λ r. app_of r ≡ spec.with_entry (app_of command.entry)) }
    ensures local { IfOk result (λ r. (out-Command r).has_globals ≡ false) }
{
    let entry = required(alloc, "entry", "NAME", "The function that is called");
    with_arg(command, entry)
}

fn with_form<'a>(alloc: Global, command: Command<'a>) -> Result<Command<'a>, AllocError>
    requires { (out-Command command).has_globals ≡ false }
    ensures app { IfOk result (λ r. app_of r ≡ spec.with_form (app_of command.entry)) }
    ensures local { IfOk result (λ r. (out-Command r).has_globals ≡ false) }
{
    let form = required(alloc, "form", "FORM", "source, framed, lowered or text");
    let command = with_arg(command, form)?;
    with_entry(alloc, command)
}

fn with_lists<'a>(alloc: Global, command: Command<'a>) -> Result<Command<'a>, AllocError>
    requires { (out-Command command).has_globals ≡ false }
    ensures app { IfOk result (λ r. app_of r ≡ spec.with_lists (app_of command.entry)) }
    ensures local { IfOk result (λ r. (out-Command r).has_globals ≡ false) }
{
    let args = option(alloc, "args", "LIST", "Its arguments, with commas between");
    let answers = option(alloc, "answers", "LIST", "What observed calls answer");
    with_arg(with_arg(command, args)?, answers)
}

fn run_command<'a>(alloc: Global) -> Result<Command<'a>, AllocError>
    ensures app { IfOk result (λ c. app_of c ≡ run_app) }
    ensures local { IfOk result (λ r. (out-Command r).has_globals ≡ false) }
{
    let command = Command::new(alloc, "run").about("Runs a function of a module");
    let command = with_arg(command, plain_flag(alloc))?;
    let command = with_form(alloc, command)?;
    let command = with_lists(alloc, command)?;
    with_arg(command, steps(alloc))
}

fn compare_command<'a>(alloc: Global) -> Result<Command<'a>, AllocError>
    ensures app { IfOk result (λ c. app_of c ≡ compare_app) }
    ensures local { IfOk result (λ r. (out-Command r).has_globals ≡ false) }
{
    let command = Command::new(alloc, "compare").about("Runs a function before and after lowering");
    let command = with_arg(command, plain_flag(alloc))?;
    let command = with_entry(alloc, command)?;
    let command = with_lists(alloc, command)?;
    with_arg(command, steps(alloc))
}

fn gen_command<'a>(alloc: Global) -> Result<Command<'a>, AllocError>
    ensures app { IfOk result (λ c. app_of c ≡ gen_app) }
    ensures local { IfOk result (λ r. (out-Command r).has_globals ≡ false) }
{
    let command = Command::new(alloc, "gen").about("Generates a module");
    let seed = numeral(alloc, "SEED", 0, 1000000, "The first number");
    let coroutines = numeral(alloc, "COROUTINES", 1, 64, "How many coroutines");
    let suspends = numeral(alloc, "SUSPENDS", 1, 64, "How many suspends in each");
    let command = with_arg(command, seed)?;
    let command = with_arg(command, coroutines)?;
    with_arg(command, suspends)
}

fn top_command<'a>(alloc: Global) -> Command<'a>
    ensures app { app_of result ≡ top_app }
    ensures local { (out-Command result).has_globals ≡ false }
{
    Command::new(alloc, "corolower")
        .about("Lowers switched-resume coroutines")
        .no_binary_name(true)
        .subcommand_required(true)
}

fn with_lowering<'a>(alloc: Global, command: Command<'a>) -> Result<Command<'a>, AllocError>
    requires { (out-Command command).has_globals ≡ false }
    ensures app { IfOk result (λ r. app_of r ≡ spec.with_lowering (app_of command.entry)) }
    ensures local { IfOk result (λ r. (out-Command r).has_globals ≡ false) }
{
    let lower = lower_command(alloc)?;
    let check = check_command(alloc)?;
    with_command(with_command(command, lower)?, check)
}

fn with_showing<'a>(alloc: Global, command: Command<'a>) -> Result<Command<'a>, AllocError>
    requires { (out-Command command).has_globals ≡ false }
    ensures app { IfOk result (λ r. app_of r ≡ spec.with_showing (app_of command.entry)) }
    ensures local { IfOk result (λ r. (out-Command r).has_globals ≡ false) }
{
    let layout = layout_command(alloc)?;
    let run = run_command(alloc)?;
    with_command(with_command(command, layout)?, run)
}

fn with_measuring<'a>(alloc: Global, command: Command<'a>) -> Result<Command<'a>, AllocError>
    requires { (out-Command command).has_globals ≡ false }
    ensures { IfOk result (λ r. app_of r ≡ spec.with_measuring (app_of command.entry)) }
{
    let compare = compare_command(alloc)?;
    let generated = gen_command(alloc)?;
    with_command(with_command(command, compare)?, generated)
}

/// The program's command line, with `lower`, `check`, `layout`, `run`, `compare` and `gen`.
pub fn command<'a>(alloc: Global) -> Result<Command<'a>, AllocError>
    ensures app { IfOk result (λ c. app_of c ≡ the_app) }
{
    let command = with_lowering(alloc, top_command(alloc))?;
    let command = with_showing(alloc, command)?;
    with_measuring(alloc, command)
}
