//! What a command line asks for as far as its words were read, and what one more word makes of it.
ghost use Rattle.std.specs.Prelude.{◌≡◌, ◌≤◌, ◌&&◌, IfSome};
ghost use Rattle.mesh_tool.specs.Words.Words.{number_from, turns_of, kind_of, make_option, make_value, make_job};
ghost use Rattle.mesh_tool.specs.Words.Words.{is_without, emulate_option, emulate_value, command_word, takes, job_of, is_word};
ghost use Rattle.mesh_atoms.specs.Literals.{only_if};

use crate::words::{Job, Kind};
use mesh_atoms::{Addr4, address_of, number_of};

/// The options of `emulate` of a scenario that is read.
#[derive(Clone, Copy)]
pub struct EmulateOptions {
    pub trace: bool,
    pub send: Option<(usize, Addr4)>,
    pub probe: Option<usize>,
}

/// The value of an option of these: FROM and then DEST of `--send`, where FROM stands at that place; NAME of `--probe`.
#[derive(Clone, Copy)]
pub enum EmulateValue {
    From,
    Dest(usize),
    Name,
}

/// The options of `emulate` of a scenario that is made.
#[derive(Clone, Copy)]
pub struct MakeOptions {
    pub kind: Option<Kind>,
    pub routers: Option<usize>,
    pub seed: Option<u64>,
}

/// The value of an option of these.
#[derive(Clone, Copy)]
pub enum MakeValue {
    Kind,
    Routers,
    Seed,
}

/// What is asked for as far as the words were read; with `Turns`, `EmulateAwaits` and `MakeAwaits` a value comes next, and with `Whole`
/// nothing more.
#[derive(Clone, Copy)]
pub enum Parsing {
    Nothing,
    Dump { recode: bool },
    Run { turns: Option<u32> },
    Turns,
    Emulate(EmulateOptions),
    EmulateAwaits(EmulateOptions, EmulateValue),
    Make(MakeOptions),
    MakeAwaits(MakeOptions, MakeValue),
    Whole(Job),
}

const NO_EMULATE_OPTIONS: EmulateOptions = EmulateOptions {
    trace: false,
    send: None,
    probe: None,
};

const NO_MAKE_OPTIONS: MakeOptions = MakeOptions {
    kind: None,
    routers: None,
    seed: None,
};

// A number from `least` to `most` in decimal digits, with no needless zero in front.
fn number_from(word: &str, least: u64, most: u64) -> Option<u64>
    requires { most ≤ 4294967295 }
    ensures exact { result ≡ number_from least most word.now }
    ensures range { IfSome result (λ n. n ≤ most) }
{
    let n = number_of(word.as_bytes(), most)?;
    if least <= n { Some(n) } else { None }
}

fn turns_of(word: &str) -> Option<u32>
    ensures { result ≡ turns_of word.now }
{
    let turns = number_from(word, 1, 4_294_967_295)?;
    Some(turns as u32)
}

fn kind_of(word: &str) -> Option<Kind>
    ensures { result ≡ kind_of word.now }
{
    if word == "grid" {
        Some(Kind::Grid)
    } else if word == "ring" {
        Some(Kind::Ring)
    } else if word == "random" {
        Some(Kind::Random)
    } else {
        None
    }
}

impl MakeOptions {
    // An option's own word.
    fn option(self, word: &str) -> Option<Parsing>
        ensures { result ≡ make_option self word.now }
    {
        if word == "--make" && self.kind.is_none() {
            Some(Parsing::MakeAwaits(self, MakeValue::Kind))
        } else if word == "--routers" && self.routers.is_none() {
            Some(Parsing::MakeAwaits(self, MakeValue::Routers))
        } else if word == "--seed" && self.seed.is_none() {
            Some(Parsing::MakeAwaits(self, MakeValue::Seed))
        } else {
            None
        }
    }

    // An option's value.
    fn value(self, value: MakeValue, word: &str) -> Option<MakeOptions>
        ensures { result ≡ make_value self value word.now }
    {
        match value {
            MakeValue::Kind => {
                let kind = kind_of(word)?;
                Some(MakeOptions {
                    kind: Some(kind),
                    ..self
                })
            }
            MakeValue::Routers => {
                let routers = number_from(word, 2, 64)?;
                Some(MakeOptions {
                    routers: Some(routers as usize),
                    ..self
                })
            }
            MakeValue::Seed => {
                let seed = number_from(word, 0, 4_294_967_295)?;
                Some(MakeOptions {
                    seed: Some(seed),
                    ..self
                })
            }
        }
    }

    fn job(self) -> Option<Job>
        ensures { result ≡ make_job self }
    {
        let kind = self.kind?;
        let routers = self.routers?;
        let seed = self.seed?;
        Some(Job::Make {
            kind,
            routers,
            seed,
        })
    }
}

impl EmulateOptions {
    // Whether no option stood.
    fn is_without(self) -> bool
        ensures { result ≡ is_without self }
    {
        !self.trace && self.send.is_none() && self.probe.is_none()
    }

    // An option's own word.
    fn option(self, word: &str) -> Option<Parsing>
        ensures { result ≡ emulate_option self word.now }
    {
        if word == "--trace" && !self.trace {
            Some(Parsing::Emulate(EmulateOptions {
                trace: true,
                ..self
            }))
        } else if word == "--send" && self.send.is_none() {
            Some(Parsing::EmulateAwaits(self, EmulateValue::From))
        } else if word == "--probe" && self.probe.is_none() {
            Some(Parsing::EmulateAwaits(self, EmulateValue::Name))
        } else if self.is_without() {
            NO_MAKE_OPTIONS.option(word)
        } else {
            None
        }
    }

    // An option's value, which is the word at that place.
    fn value(self, value: EmulateValue, place: usize, word: &str) -> Option<Parsing>
        ensures { result ≡ emulate_value self value place word.now }
    {
        match value {
            EmulateValue::From => Some(Parsing::EmulateAwaits(self, EmulateValue::Dest(place))),
            EmulateValue::Dest(from) => {
                let dest = address_of(word.as_bytes())?;
                Some(Parsing::Emulate(EmulateOptions {
                    send: Some((from, dest)),
                    ..self
                }))
            }
            EmulateValue::Name => Some(Parsing::Emulate(EmulateOptions {
                probe: Some(place),
                ..self
            })),
        }
    }
}

fn command_word(word: &str) -> Option<Parsing>
    ensures { result ≡ command_word word.now }
{
    if word == "dump" {
        Some(Parsing::Dump { recode: false })
    } else if word == "run" {
        Some(Parsing::Run { turns: None })
    } else if word == "emulate" {
        Some(Parsing::Emulate(NO_EMULATE_OPTIONS))
    } else if word == "replay" {
        Some(Parsing::Whole(Job::Replay))
    } else {
        None
    }
}

// The one option of a command, which may stand where it didn't yet.
fn only_option(word: &str, name: &str, free: bool, next: Parsing) -> Option<Parsing>
    ensures { result ≡ only_if (is_word word.now name.now && free) next }
{
    if word == name && free {
        Some(next)
    } else {
        None
    }
}

/// What is asked for after one more word, which has that place, where it begins a command line with the words before it.
pub fn takes(asked: Parsing, place: usize, word: &str) -> Option<Parsing>
    ensures { result ≡ takes asked place word.now }
{
    match asked {
        Parsing::Nothing => command_word(word),
        Parsing::Dump { recode } => only_option(
            word,
            "--recode",
            !recode,
            Parsing::Dump { recode: true },
        ),
        Parsing::Run { turns } => only_option(word, "--turns", turns.is_none(), Parsing::Turns),
        Parsing::Turns => match turns_of(word) {
            Some(turns) => Some(Parsing::Run { turns: Some(turns) }),
            None => None,
        },
        Parsing::Emulate(options) => options.option(word),
        Parsing::EmulateAwaits(options, value) => options.value(value, place, word),
        Parsing::Make(options) => options.option(word),
        Parsing::MakeAwaits(options, value) => match options.value(value, word) {
            Some(options) => Some(Parsing::Make(options)),
            None => None,
        },
        Parsing::Whole(_) => None,
    }
}

/// The job, where no word is missing.
pub fn job_of(asked: Parsing) -> Option<Job>
    ensures { result ≡ job_of asked }
{
    match asked {
        Parsing::Dump { recode } => Some(Job::Dump { recode }),
        Parsing::Run { turns } => match turns {
            Some(turns) => Some(Job::Run { turns }),
            None => None,
        },
        Parsing::Emulate(options) => Some(Job::Emulate {
            trace: options.trace,
            send: options.send,
            probe: options.probe,
        }),
        Parsing::Make(options) => options.job(),
        Parsing::Whole(job) => Some(job),
        Parsing::Nothing
        | Parsing::Turns
        | Parsing::EmulateAwaits(_, _)
        | Parsing::MakeAwaits(_, _) => None,
    }
}
