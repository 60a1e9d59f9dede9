//! The reading of the command line.

ghost use Rattle.std.specs.Prelude.{◌≡◌, ◌≤◌, ◌==◌, map, string_bytes, Some, None, IfSome, MatchOption, IfOk, IsErrOf, if◌then◌else◌};
ghost use Rattle.std.specs.List.{slice_split};
ghost use Rattle.std.specs.Option.{option_map};
ghost use Rattle.om_opts.specs.Letters.{opt_of};
ghost use Rattle.omalloc.specs.Arguments.{short_number_to, numbers_of, listed_plan, seeded_plan, plan_of, plan_from, zones_of, with_zones, zones_from, is_value, with_letters, options_from, run_arguments_of, is_built, head_of, head_of_arguments};
ghost use Rattle.omalloc.specs.Heads.{IsHead};
ghost use Rattle.om_words.specs.declared.plan.WordPlan.TheVariants.{Listed, Seeded};

use crate::bytes::{cut_at, number_to};
use om_geom::MOST_ZONES;
use om_model::Head;
use om_opts::{Opts, parse};
use om_words::{WordList, WordPlan};
use std::alloc::{AllocError, Global};

/// Why the arguments give no head.
#[derive(Debug, Drop)]
pub enum ArgumentsStop {
    /// They ask for what isn't built, or are of no accepted form.
    NotBuilt,
    /// No memory was there.
    Memory,
}

// The most digits of a number.
const MOST_DIGITS: usize = 20;

// A number up to the greatest, of 1 to 20 digits.
fn short_number_to(greatest: u64, text: &[u8]) -> Option<u64>
    ensures number { result ≡ short_number_to greatest text.now }
    ensures bound { IfSome result (λ number. number ≤ greatest) }
{
    if text.len() > MOST_DIGITS {
        return None;
    }
    number_to(greatest, text)
}

// The numbers of a list with single commas between them.
fn numbers_of(alloc: Global, list: &[u8]) -> Result<Option<Vec<u32>>, AllocError>
    ensures { IfOk result (λ numbers. option_map (λ v. v.items) numbers
        ≡ numbers_of (slice_split (λ b. b == 44) list.now)) }
{
    let mut numbers = Vec::new(alloc);
    let mut rest = Some(list);
    while let Some(text) = rest {
        let (part, more) = cut_at(text, b',');
        let Some(number) = short_number_to(u64::from(u32::MAX), part) else {
            return Ok(None);
        };
        numbers.push(number as u32)?;
        rest = more;
    }
    Ok(Some(numbers))
}

fn listed_plan(alloc: Global, list: &[u8]) -> Result<Option<WordPlan>, AllocError>
    ensures { IfOk result (λ plan. plan ≡ listed_plan list.now) }
{
    let numbers = numbers_of(alloc, list)?;
    Ok(numbers.map(|numbers| WordPlan::Listed(WordList::new(numbers))))
}

fn seeded_plan(seed: &[u8]) -> Option<WordPlan>
    ensures { result ≡ seeded_plan seed.now }
{
    let seed = short_number_to(u64::MAX, seed)?;
    Some(WordPlan::Seeded(seed))
}

// The plan that an option and its value say.
fn plan_of(alloc: Global, option: &[u8], value: &[u8]) -> Result<Option<WordPlan>, AllocError>
    ensures { IfOk result (λ plan. plan ≡ plan_of option.now value.now) }
{
    if option == b"-s".as_slice() {
        Ok(seeded_plan(value))
    } else if option == b"-w".as_slice() {
        listed_plan(alloc, value)
    } else {
        Ok(None)
    }
}

// The plan that the last arguments say.
fn plan_from(alloc: Global, arguments: &[String]) -> Result<Option<WordPlan>, AllocError>
    ensures { IfOk result (λ plan. plan ≡ plan_from (map string_bytes arguments.now)) }
{
    match arguments {
        [] => Ok(Some(WordPlan::Seeded(0))),
        [option, value] => plan_of(alloc, option.as_bytes(), value.as_bytes()),
        _ => Ok(None),
    }
}

// The zones that the value of `-z` says.
fn zones_of(value: &[u8]) -> Option<u32>
    ensures { result ≡ zones_of value.now }
{
    let zones = short_number_to(u64::from(MOST_ZONES), value)?;
    if zones >= 1 { Some(zones as u32) } else { None }
}

// The zones, and the arguments behind them.
fn cut_zones(arguments: &[String]) -> Option<(u32, &[String])>
    ensures { MatchOption result (zones_from (map string_bytes arguments.now) ≡ None) (λ cut.
        zones_from (map string_bytes arguments.now)
        ≡ with_zones cut.0 (map string_bytes cut.1.now)) }
{
    match arguments {
        [option, value, rest @ ..] if option.as_bytes() == b"-z".as_slice() => {
            let zones = zones_of(value.as_bytes())?;
            Some((zones, rest))
        }
        _ => Some((MOST_ZONES, arguments)),
    }
}

// The arguments after `run`.
fn after_run(arguments: &[String]) -> Option<&[String]>
    ensures { let given = run_arguments_of (map string_bytes arguments.now) in
        MatchOption result (given ≡ None)
        (λ rest. given ≡ options_from (map string_bytes rest.now)) }
{
    let (command, rest) = arguments.split_first()?;
    if command.as_bytes() == b"run".as_slice() {
        Some(rest)
    } else {
        None
    }
}

// The value of an option doesn't begin with `-`.
fn is_value(argument: &[u8]) -> bool
    ensures { result ≡ is_value argument.now }
{
    match argument.first() {
        Some(first) => *first != b'-',
        None => true,
    }
}

// The letters, and the arguments behind them.
fn cut_letters(arguments: &[String]) -> Option<(&[u8], &[String])>
    ensures { MatchOption result (options_from (map string_bytes arguments.now) ≡ None) (λ cut.
        options_from (map string_bytes arguments.now)
        ≡ with_letters cut.0.now (map string_bytes cut.1.now)) }
{
    match arguments {
        [option, value, rest @ ..] if option.as_bytes() == b"-o".as_slice() => {
            if is_value(value.as_bytes()) {
                Some((value.as_bytes(), rest))
            } else {
                None
            }
        }
        _ => Some((b"".as_slice(), arguments)),
    }
}

// What these options ask for is built.
fn is_built(opts: Opts) -> bool
    ensures { result ≡ is_built opts }
{
    !(opts.xmalloc || opts.dump)
}

// The head of a run with these letters, zones and plan; none where they ask for what isn't built.
fn head_of(
    alloc: Global,
    letters: &[u8],
    zones: u32,
    plan: WordPlan,
) -> Result<Option<Head>, AllocError>
    ensures { IfOk result (λ head. head ≡ (if is_built (opt_of letters.now)
        then Some (head_of (record { letters = letters.now; zones = zones; plan = plan }))
        else None)) }
{
    let parsed = parse(alloc, letters)?;
    let opts = parsed.opts();
    if !is_built(opts) {
        return Ok(None);
    }
    Ok(Some(Head {
        opts: Opts { pools: 1, ..opts },
        zones,
        plan,
        warned: Vec::from_slice(alloc, parsed.warned())?,
    }))
}

fn head_of_arguments(alloc: Global, arguments: &[String]) -> Result<Option<Head>, AllocError>
    ensures { IfOk result (λ head. head ≡ head_of_arguments (map string_bytes arguments.now)) }
{
    let Some(options) = after_run(arguments) else {
        return Ok(None);
    };
    let Some((letters, rest)) = cut_letters(options) else {
        return Ok(None);
    };
    let Some((zones, rest)) = cut_zones(rest) else {
        return Ok(None);
    };
    match plan_from(alloc, rest)? {
        Some(plan) => head_of(alloc, letters, zones, plan),
        None => Ok(None),
    }
}

/// The head of the run that the arguments ask for.
pub fn read_arguments(alloc: Global, arguments: &[String]) -> Result<Head, ArgumentsStop>
    ensures accepted { IfOk result (λ head.
        head_of_arguments (map string_bytes arguments.now) ≡ Some head) }
    ensures refused { IsErrOf result ArgumentsStop.NotBuilt
        → head_of_arguments (map string_bytes arguments.now) ≡ None }
    ensures form { IfOk result IsHead }
{
    match head_of_arguments(alloc, arguments) {
        Ok(Some(head)) => Ok(head),
        Ok(None) => Err(ArgumentsStop::NotBuilt),
        Err(_) => Err(ArgumentsStop::Memory),
    }
}
