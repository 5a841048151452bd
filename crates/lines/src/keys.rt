// The commands, and the words that they are typed as.
ghost use Rattle.std.specs.Prelude.{◌≡◌};
ghost use Rattle.text.specs.Typed.{same};
ghost use Rattle.lines.specs.Keys.{name_of};

#[derive(Clone, Copy, PartialEq, Eq, Debug)]
pub enum Command {
    R,
    M,
    Ms,
    Poke,
    PokeStorage,
    W,
    Rd,
    Ff00,
    Ff00Upper,
    Z,
    G,
    Ba,
    Cycle,
    Enable,
    Disable,
    Reset,
    New,
    Save,
    Open,
    Beside,
    Help,
    Q,
    Size,
}

// Every one.
pub const COMMANDS: [Command; 23] = [
    Command::R,
    Command::M,
    Command::Ms,
    Command::Poke,
    Command::PokeStorage,
    Command::W,
    Command::Rd,
    Command::Ff00,
    Command::Ff00Upper,
    Command::Z,
    Command::G,
    Command::Ba,
    Command::Cycle,
    Command::Enable,
    Command::Disable,
    Command::Reset,
    Command::New,
    Command::Save,
    Command::Open,
    Command::Beside,
    Command::Help,
    Command::Q,
    Command::Size,
];

impl Command {
    // Its word.
    pub fn name(self) -> &'static [u8]
        ensures { result.now ≡ name_of self }
    {
        match self {
            Command::R => b"r",
            Command::M => b"m",
            Command::Ms => b"ms",
            Command::Poke => b">",
            Command::PokeStorage => b">s",
            Command::W => b"w",
            Command::Rd => b"rd",
            Command::Ff00 => b"ff00",
            Command::Ff00Upper => b"FF00",
            Command::Z => b"z",
            Command::G => b"g",
            Command::Ba => b"ba",
            Command::Cycle => b"cycle",
            Command::Enable => b"enable",
            Command::Disable => b"disable",
            Command::Reset => b"reset",
            Command::New => b"new",
            Command::Save => b"save",
            Command::Open => b"open",
            Command::Beside => b"beside",
            Command::Help => b"help",
            Command::Q => b"q",
            Command::Size => b"size",
        }
    }

    // Whether a word is it.
    #[tactic(auto, using(text::proofs::Same::same_is))]
    pub(crate) fn is_named(self, word: &[u8]) -> bool
        ensures { result ≡ same (name_of self) word.now }
    {
        self.name() == word
    }
}
