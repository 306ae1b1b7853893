// What the words of a call ask for.

ghost use Rattle.std.specs.Prelude.{◌≤◌};
ghost use Rattle.std.specs.Option.{ForSome};
ghost use Rattle.tp_value.specs.declared.limits.TheConstants.{MAX_BEAT, MAX_FORKS, MAX_FUEL};
ghost use Rattle.tp_value.specs.declared.limits.TheConstants.{MAX_WORKERS};
ghost use Rattle.tpal_verify.specs.declared.report.TheConstants.{MAX_STEPS};

/// How a run goes.
#[derive(Clone, Copy)]
pub struct RunOptions {
    /// The heartbeat, in instructions.
    pub beat: u64,
    /// The workers.
    pub workers: u32,
    /// How often each worker may be diverted.
    pub forks: u32,
    /// The fuel, in ticks.
    pub fuel: u64,
    /// Whether the code stands before the output, and the counts behind it.
    pub show: bool,
    ghost beat_in_range: { (1 ≤ beat) × (beat ≤ MAX_BEAT) },
    ghost workers_in_range: { (1 ≤ workers) × (workers ≤ MAX_WORKERS) },
    ghost forks_in_range: { forks ≤ MAX_FORKS },
    ghost fuel_in_range: { fuel ≤ MAX_FUEL },
}

/// A run that the words of a call ask for.
#[derive(Clone, Copy)]
pub struct RunRequest<'a> {
    /// The name of the program's text.
    pub program: &'a str,
    /// The name of the tables' text, or None for the empty text.
    pub tables: Option<&'a str>,
    /// How the run goes.
    pub options: RunOptions,
}

/// A run of the sample that the words of a call ask for.
#[derive(Clone, Copy)]
pub struct SampleRequest {
    /// The seed of the sample.
    pub seed: u32,
    /// How the run goes.
    pub options: RunOptions,
}

/// How a run of a code goes, by one worker.
#[derive(Clone, Copy)]
pub struct ExecOptions {
    /// The heartbeat, in instructions.
    pub beat: u64,
    /// How often the worker may be diverted.
    pub forks: u32,
    /// The fuel, in ticks.
    pub fuel: u64,
    /// The instructions that may be executed.
    pub steps: u64,
    ghost beat_in_range: { (1 ≤ beat) × (beat ≤ MAX_BEAT) },
    ghost forks_in_range: { forks ≤ MAX_FORKS },
    ghost fuel_in_range: { fuel ≤ MAX_FUEL },
    ghost steps_in_range: { steps ≤ MAX_STEPS },
}

/// A run of a code that the words of a call ask for.
#[derive(Clone, Copy)]
pub struct ExecRequest<'a> {
    /// The name of the code's text.
    pub code: &'a str,
    /// The name of the tables' text, or None for the empty text.
    pub tables: Option<&'a str>,
    /// How the run goes.
    pub options: ExecOptions,
}

/// What the words of a call ask for.
#[derive(Clone, Copy)]
pub enum Request<'a> {
    /// A run of a program.
    Run(RunRequest<'a>),
    /// The code of the program whose text has that name.
    Compile(&'a str),
    /// A run of the sample of a seed.
    Sample(SampleRequest),
    /// A run of a code.
    Exec(ExecRequest<'a>),
}

/// An option that has a value.
#[derive(Clone, Copy)]
pub enum Valued {
    /// `--beat`, the heartbeat.
    Beat,
    /// `--workers`, the workers.
    Workers,
    /// `--forks`, how often each worker may be diverted.
    Forks,
    /// `--fuel`, the fuel.
    Fuel,
    /// `--steps`, the instructions that may be executed.
    Steps,
}

/// The options so far.
#[derive(Clone, Copy)]
pub struct Chosen {
    /// The value of `--beat`.
    pub beat: Option<u64>,
    /// The value of `--workers`.
    pub workers: Option<u64>,
    /// The value of `--forks`.
    pub forks: Option<u64>,
    /// The value of `--fuel`.
    pub fuel: Option<u64>,
    /// The value of `--steps`.
    pub steps: Option<u64>,
    /// Whether `--show` stood there.
    pub show: bool,
    ghost beat_in_range: { ForSome beat (λ n. (1 ≤ n) × (n ≤ MAX_BEAT)) },
    ghost workers_in_range: { ForSome workers (λ n. (1 ≤ n) × (n ≤ MAX_WORKERS)) },
    ghost forks_in_range: { ForSome forks (λ n. n ≤ MAX_FORKS) },
    ghost fuel_in_range: { ForSome fuel (λ n. n ≤ MAX_FUEL) },
    ghost steps_in_range: { ForSome steps (λ n. n ≤ MAX_STEPS) },
}

/// The words behind the command, so far.
#[derive(Clone, Copy)]
pub struct Gathered<'a> {
    /// The first positional word.
    pub first_word: Option<&'a str>,
    /// The second one, which stands only behind the first.
    pub second_word: Option<&'a str>,
    /// The options.
    pub options: Chosen,
}
