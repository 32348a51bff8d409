ghost use Rattle.al_ids.specs.Paths.{IsPath};
ghost use Rattle.al_ids.specs.PathReading.{after_name as after_name_of, after_step as after_step_of, leads_to_end, may_end as may_end_of, next_state, stop_from, when};
ghost use Rattle.al_ids.specs.declared.path.State.TheVariants.{Begin};
ghost use Rattle.std.specs.Prelude.{◌≡◌, ◌↔◌, IsTrue};

use al_base::type_id::{begins_identifier, continues_identifier};

/// Whose name is read.
#[derive(Clone, Copy)]
enum Part {
    Step,
    Predicate,
}

/// Where the reader of a path stands.
#[derive(Clone, Copy)]
enum State {
    /// Before a path whose first step says its module.
    Start,
    /// Before a path whose steps need not say their modules.
    Begin,
    /// Behind its first slash, where a module must follow.
    Root,
    /// In the module of the first step.
    Module,
    /// Behind a later slash.
    Slash,
    /// Behind the bracket that opens a predicate.
    Open,
    /// In a module or a name.
    Word(Part),
    /// Behind the colon of a module.
    Colon(Part),
    /// In a name whose module was said.
    Name(Part),
    /// Behind the dot that stands for a predicate's name.
    Dot,
    /// Behind a predicate's `=`.
    Equals,
    /// In a value between these quotes.
    Value(u8),
    /// Behind the quote that ends a value.
    Quoted,
    /// Behind the bracket that closes a predicate.
    Closed,
}

impl State {
    /// The state behind this byte, None where no path has it here.
    fn next(self, byte: u8) -> Option<State>
        ensures { result ≡ next_state self byte }
    {
        match self {
            State::Start => when(byte == b'/', State::Root),
            State::Begin => when(byte == b'/', State::Slash),
            State::Root => when(begins_identifier(byte), State::Module),
            State::Module => match byte {
                b':' => Some(State::Colon(Part::Step)),
                _ => when(continues_identifier(byte), State::Module),
            },
            State::Slash => when(begins_identifier(byte), State::Word(Part::Step)),
            State::Open => match byte {
                b'.' => Some(State::Dot),
                _ => when(begins_identifier(byte), State::Word(Part::Predicate)),
            },
            State::Word(part) => {
                if continues_identifier(byte) {
                    Some(State::Word(part))
                } else if byte == b':' {
                    Some(State::Colon(part))
                } else {
                    after_name(part, byte)
                }
            }
            State::Colon(part) => when(begins_identifier(byte), State::Name(part)),
            State::Name(part) => {
                if continues_identifier(byte) {
                    Some(State::Name(part))
                } else {
                    after_name(part, byte)
                }
            }
            State::Dot => when(byte == b'=', State::Equals),
            State::Equals => when(byte == b'\'' || byte == b'"', State::Value(byte)),
            State::Value(quote) => {
                if byte == quote {
                    Some(State::Quoted)
                } else {
                    Some(State::Value(quote))
                }
            }
            State::Quoted => when(byte == b']', State::Closed),
            State::Closed => after_step(byte),
        }
    }

    /// Whether a path may end here.
    fn may_end(self) -> bool
        ensures { result ≡ may_end_of self }
    {
        matches!(
            self,
            State::Word(Part::Step) | State::Name(Part::Step) | State::Closed
        )
    }

    /// Whether the text leads from here to the end of a path.
    fn reaches_end(self, text: &[u8]) -> bool
        ensures { result ≡ leads_to_end text.now self }
    {
        let mut state = self;
        for byte in text {
            match state.next(*byte) {
                Some(next) => state = next,
                None => return false,
            }
        }
        state.may_end()
    }

    /// Where the text leaves what leads from here to the end of a path: at a byte, or at its length where it ends too soon.
    fn stop(self, text: &[u8]) -> Option<usize>
        ensures { result ≡ stop_from 0 text.now self }
    {
        let mut state = self;
        for (place, byte) in text.iter().enumerate() {
            match state.next(*byte) {
                Some(next) => state = next,
                None => return Some(place),
            }
        }
        if state.may_end() {
            None
        } else {
            Some(text.len())
        }
    }
}

fn when(holds: bool, state: State) -> Option<State>
    ensures { result ≡ when holds state }
{
    if holds { Some(state) } else { None }
}

fn after_step(byte: u8) -> Option<State>
    ensures { result ≡ after_step_of byte }
{
    match byte {
        b'/' => Some(State::Slash),
        _ => when(byte == b'[', State::Open),
    }
}

fn after_name(part: Part, byte: u8) -> Option<State>
    ensures { result ≡ after_name_of part byte }
{
    match part {
        Part::Step => after_step(byte),
        Part::Predicate => when(byte == b'=', State::Equals),
    }
}

/// Whether the text is a path whose first step says its module.
pub fn is_path(text: &[u8]) -> bool
    ensures { IsTrue result ↔ IsPath text.now }
{
    State::Start.reaches_end(text)
}

/// The first byte that no path has there, or the length where the text ends too soon; None where it is a path, whose steps
/// need not say their modules. Bytes that aren't UTF-8 are taken inside quotes.
pub fn path_stop(text: &[u8]) -> Option<usize>
    ensures { result ≡ stop_from 0 text.now Begin }
{
    State::Begin.stop(text)
}
