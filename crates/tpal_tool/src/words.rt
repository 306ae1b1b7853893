// The words of a call: a command, and behind it positional words and options.

ghost use Rattle.std.specs.Prelude.{◌≡◌, ◌≤◌, IfSome, map, option_map, string_bytes};
ghost use Rattle.tp_value.specs.declared.limits.TheConstants.{MAX_FUEL};
ghost use Rattle.tpal_tool.specs.Words.{asked_by, compile_of, exec_of, exec_options_of, is_dashed};
ghost use Rattle.tpal_tool.specs.Words.{is_plain, kind_of};
ghost use Rattle.tpal_tool.specs.Words.{least_of, most_of, number_up_to, options_of, run_of};
ghost use Rattle.tpal_tool.specs.Words.{sample_run_of, seed_of, spelled, value_of, with_number};
ghost use Rattle.tpal_tool.specs.Words.{with_rest, with_show, with_value, with_word, with_words};
ghost use Rattle.tpal_tool.specs.Asking.{chosen_of, command_of, given_of, kind_seen, due_of};
ghost use Rattle.tpal_tool.specs.Asking.{exec_options_seen, options_seen};

use crate::request::{
    Chosen, ExecOptions, ExecRequest, Gathered, Request, RunOptions, RunRequest, SampleRequest,
    Valued,
};
use tp_value::{MAX_BEAT, MAX_FORKS, MAX_FUEL, MAX_WORKERS};
use tpal_verify::MAX_STEPS;

/// The heartbeat of a run that names none, in instructions.
pub const DEFAULT_BEAT: u64 = 10_000;

/// The workers of a run that names no number.
pub const DEFAULT_WORKERS: u64 = 1;

/// How often a worker may be diverted where the run doesn't say it.
pub const DEFAULT_FORKS: u64 = 1_000_000;

/// The fuel of a run that names none, in ticks.
pub const DEFAULT_FUEL: u64 = 1_000_000_000;

/// The instructions that a run of a code may execute where it names no number.
pub const DEFAULT_STEPS: u64 = 1_000_000_000;

/// What a word behind the command is.
#[derive(Clone, Copy)]
enum WordKind<'a> {
    Positional,
    EndOfOptions,
    Show,
    ValueNext(Valued),
    ValueIs(Valued, &'a [u8]),
    Unlisted,
}

/// What comes next behind the command.
#[derive(Clone, Copy)]
enum NextWord {
    Any,
    ValueOf(Valued),
}

/// The number that digits spell behind those of `before`, where it is at most `most`.
fn number_behind(before: u64, digits: &[u8], most: u64) -> Option<u64>
    requires before { before ≤ most }
    requires most { most ≤ MAX_FUEL }
    ensures number { result ≡ spelled most before digits.now }
    ensures within { IfSome result (λ n. n ≤ most) }
{
    let Some((digit, rest)) = digits.split_first() else {
        return Some(before);
    };
    if !digit.is_ascii_digit() {
        return None;
    }
    let number = before * 10 + u64::from(digit - b'0');
    if number > most {
        return None;
    }
    number_behind(number, rest, most)
}

/// The number that one to twenty decimal digits spell, where it is at most `most`.
fn number_up_to(word: &[u8], most: u64) -> Option<u64>
    requires { most ≤ MAX_FUEL }
    ensures number { result ≡ number_up_to most word.now }
    ensures within { IfSome result (λ n. n ≤ most) }
{
    if word.is_empty() || word.len() > 20 {
        return None;
    }
    number_behind(0, word, most)
}

/// The least value of an option.
fn least_of(option: Valued) -> u64
    ensures { result ≡ least_of option }
{
    match option {
        Valued::Beat => 1,
        Valued::Workers => 1,
        Valued::Forks => 0,
        Valued::Fuel => 0,
        Valued::Steps => 0,
    }
}

/// The greatest value of an option.
fn most_of(option: Valued) -> u64
    ensures { result ≡ most_of option }
{
    match option {
        Valued::Beat => MAX_BEAT,
        Valued::Workers => u64::from(MAX_WORKERS),
        Valued::Forks => u64::from(MAX_FORKS),
        Valued::Fuel => MAX_FUEL,
        Valued::Steps => MAX_STEPS,
    }
}

/// The value of an option: a number in its range.
fn value_of(option: Valued, word: &[u8]) -> Option<u64>
    ensures value { result ≡ value_of option word.now }
    ensures within { IfSome result (λ n. (least_of option ≤ n) × (n ≤ most_of option)) }
{
    let number = number_up_to(word, most_of(option))?;
    if number < least_of(option) {
        return None;
    }
    Some(number)
}

fn is_dashed(word: &[u8]) -> bool
    ensures { result ≡ is_dashed word.now }
{
    match word {
        [] => false,
        [first, ..] => *first == b'-',
    }
}

fn kind_of(word: &str) -> WordKind<'_>
    ensures { kind_seen result ≡ kind_of word.now }
{
    match word {
        "--" => return WordKind::EndOfOptions,
        "--show" => return WordKind::Show,
        "--beat" => return WordKind::ValueNext(Valued::Beat),
        "--workers" => return WordKind::ValueNext(Valued::Workers),
        "--forks" => return WordKind::ValueNext(Valued::Forks),
        "--fuel" => return WordKind::ValueNext(Valued::Fuel),
        "--steps" => return WordKind::ValueNext(Valued::Steps),
        _ => {}
    }
    if let Some(value) = word.as_bytes().strip_prefix(b"--beat=") {
        return WordKind::ValueIs(Valued::Beat, value);
    }
    if let Some(value) = word.as_bytes().strip_prefix(b"--workers=") {
        return WordKind::ValueIs(Valued::Workers, value);
    }
    if let Some(value) = word.as_bytes().strip_prefix(b"--forks=") {
        return WordKind::ValueIs(Valued::Forks, value);
    }
    if let Some(value) = word.as_bytes().strip_prefix(b"--fuel=") {
        return WordKind::ValueIs(Valued::Fuel, value);
    }
    if let Some(value) = word.as_bytes().strip_prefix(b"--steps=") {
        return WordKind::ValueIs(Valued::Steps, value);
    }
    if is_dashed(word.as_bytes()) && word != "-" {
        return WordKind::Unlisted;
    }
    WordKind::Positional
}

/// The options with the value of one more, which is given once.
fn with_number(option: Valued, number: u64, chosen: Chosen) -> Option<Chosen>
    requires { (least_of option ≤ number) × (number ≤ most_of option) }
    ensures { option_map chosen_of result ≡ with_number option number (chosen_of chosen) }
{
    let old = match option {
        Valued::Beat => chosen.beat,
        Valued::Workers => chosen.workers,
        Valued::Forks => chosen.forks,
        Valued::Fuel => chosen.fuel,
        Valued::Steps => chosen.steps,
    };
    if old.is_some() {
        return None;
    }
    let mut chosen = chosen;
    match option {
        Valued::Beat => chosen.beat = Some(number),
        Valued::Workers => chosen.workers = Some(number),
        Valued::Forks => chosen.forks = Some(number),
        Valued::Fuel => chosen.fuel = Some(number),
        Valued::Steps => chosen.steps = Some(number),
    }
    Some(chosen)
}

/// The words so far with the value of an option.
fn with_value<'a>(option: Valued, word: &[u8], given: Gathered<'a>) -> Option<Gathered<'a>>
    ensures { option_map given_of result ≡ with_value option word.now (given_of given.entry) }
{
    let number = value_of(option, word)?;
    let options = with_number(option, number, given.options)?;
    Some(Gathered {
        first_word: given.first_word,
        second_word: given.second_word,
        options,
    })
}

/// The words so far with `--show`, which stands there once.
fn with_show<'a>(given: Gathered<'a>) -> Option<Gathered<'a>>
    ensures { option_map given_of result ≡ with_show (given_of given.entry) }
{
    let Chosen {
        beat,
        workers,
        forks,
        fuel,
        steps,
        show,
    } = given.options;
    if show {
        return None;
    }
    Some(Gathered {
        first_word: given.first_word,
        second_word: given.second_word,
        options: Chosen {
            beat,
            workers,
            forks,
            fuel,
            steps,
            show: true,
        },
    })
}

/// One positional word more, of two at most.
fn with_word<'a>(word: &'a str, given: Gathered<'a>) -> Option<Gathered<'a>>
    ensures { option_map given_of result ≡ with_word word.now (given_of given.entry) }
{
    match (given.first_word, given.second_word) {
        (_, Some(_)) => None,
        (Some(_), None) => Some(Gathered {
            first_word: given.first_word,
            second_word: Some(word),
            options: given.options,
        }),
        (None, None) => Some(Gathered {
            first_word: Some(word),
            second_word: None,
            options: given.options,
        }),
    }
}

/// Words that are positional whatever they are.
fn with_words<'a>(words: &'a [String], given: Gathered<'a>) -> Option<Gathered<'a>>
    ensures { option_map given_of result
        ≡ with_words (map string_bytes words.now) (given_of given.entry) }
{
    match words.split_first() {
        None => Some(given),
        Some((word, rest)) => with_words(rest, with_word(word.as_str(), given)?),
    }
}

/// The words behind the command, in order.
fn with_rest<'a>(next: NextWord, words: &'a [String], given: Gathered<'a>) -> Option<Gathered<'a>>
    ensures { option_map given_of result
        ≡ with_rest (due_of next) (map string_bytes words.now) (given_of given.entry) }
{
    let Some((word, rest)) = words.split_first() else {
        return match next {
            NextWord::Any => Some(given),
            NextWord::ValueOf(_) => None,
        };
    };
    let word = word.as_str();
    let any = NextWord::Any;
    match next {
        NextWord::ValueOf(option) => {
            with_rest(any, rest, with_value(option, word.as_bytes(), given)?)
        }
        NextWord::Any => match kind_of(word) {
            WordKind::Positional => with_rest(any, rest, with_word(word, given)?),
            WordKind::EndOfOptions => with_words(rest, given),
            WordKind::Show => with_rest(any, rest, with_show(given)?),
            WordKind::ValueNext(option) => with_rest(NextWord::ValueOf(option), rest, given),
            WordKind::ValueIs(option, value) => {
                with_rest(any, rest, with_value(option, value, given)?)
            }
            WordKind::Unlisted => None,
        },
    }
}

/// The options of a run, with what is taken where one isn't given.
fn options_of(chosen: Chosen) -> RunOptions
    ensures { options_seen result ≡ options_of (chosen_of chosen) }
{
    RunOptions {
        beat: chosen.beat.unwrap_or(DEFAULT_BEAT),
        workers: chosen.workers.unwrap_or(DEFAULT_WORKERS) as u32,
        forks: chosen.forks.unwrap_or(DEFAULT_FORKS) as u32,
        fuel: chosen.fuel.unwrap_or(DEFAULT_FUEL),
        show: chosen.show,
    }
}

/// The options of a run of a code, with what is taken where one isn't given.
fn exec_options_of(chosen: Chosen) -> ExecOptions
    ensures { exec_options_seen result ≡ exec_options_of (chosen_of chosen) }
{
    ExecOptions {
        beat: chosen.beat.unwrap_or(DEFAULT_BEAT),
        forks: chosen.forks.unwrap_or(DEFAULT_FORKS) as u32,
        fuel: chosen.fuel.unwrap_or(DEFAULT_FUEL),
        steps: chosen.steps.unwrap_or(DEFAULT_STEPS),
    }
}

/// `run` takes a program, tables or none, and options but `--steps`.
fn run_of(given: Gathered) -> Option<Request>
    ensures { option_map command_of result ≡ run_of (given_of given.entry) }
{
    if given.options.steps.is_some() {
        return None;
    }
    Some(Request::Run(RunRequest {
        program: given.first_word?,
        tables: given.second_word,
        options: options_of(given.options),
    }))
}

/// Whether no option was given.
fn is_plain(chosen: Chosen) -> bool
    ensures { result ≡ is_plain (chosen_of chosen) }
{
    chosen.beat.is_none()
        && chosen.workers.is_none()
        && chosen.forks.is_none()
        && chosen.fuel.is_none()
        && chosen.steps.is_none()
        && !chosen.show
}

/// `compile` takes a program alone.
fn compile_of(given: Gathered) -> Option<Request>
    ensures { option_map command_of result ≡ compile_of (given_of given.entry) }
{
    if given.second_word.is_none() && is_plain(given.options) {
        return Some(Request::Compile(given.first_word?));
    }
    None
}

/// The seed that a word spells.
fn seed_of(word: &[u8]) -> Option<u32>
    ensures { result ≡ seed_of word.now }
{
    let number = number_up_to(word, u64::from(u32::MAX))?;
    Some(number as u32)
}

/// `sample` takes a seed alone, and the options of a run but `--show`.
fn sample_run_of(given: Gathered) -> Option<Request>
    ensures { option_map command_of result ≡ sample_run_of (given_of given.entry) }
{
    if given.second_word.is_some() || given.options.show || given.options.steps.is_some() {
        return None;
    }
    let seed = seed_of(given.first_word?.as_bytes())?;
    let options = options_of(given.options);
    Some(Request::Sample(SampleRequest { seed, options }))
}

/// `exec` takes a code, tables or none, and options but `--workers` and `--show`.
fn exec_of(given: Gathered) -> Option<Request>
    ensures { option_map command_of result ≡ exec_of (given_of given.entry) }
{
    if given.options.workers.is_some() || given.options.show {
        return None;
    }
    Some(Request::Exec(ExecRequest {
        code: given.first_word?,
        tables: given.second_word,
        options: exec_options_of(given.options),
    }))
}

/// What the words of a call ask for, or None where they are not of the form.
pub fn asked(words: &[String]) -> Option<Request<'_>>
    ensures { option_map command_of result ≡ asked_by words.now }
{
    let (command, rest) = words.split_first()?;
    let given = Gathered {
        first_word: None,
        second_word: None,
        options: Chosen {
            beat: None,
            workers: None,
            forks: None,
            fuel: None,
            steps: None,
            show: false,
        },
    };
    match command.as_str() {
        "run" => run_of(with_rest(NextWord::Any, rest, given)?),
        "compile" => compile_of(with_rest(NextWord::Any, rest, given)?),
        "sample" => sample_run_of(with_rest(NextWord::Any, rest, given)?),
        "exec" => exec_of(with_rest(NextWord::Any, rest, given)?),
        _ => None,
    }
}
