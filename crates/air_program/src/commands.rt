//! The words that the program is called with.

ghost use Rattle.std.specs.Prelude.{◌≡◌, ◌==◌, map, slice_index_or, string_bytes};
ghost use Rattle.air_program.specs.Commands.{command_of, cap_of, weight_of, setting_of, settings_of, word_request, request_of};

/// An AIR that comes with the program.
#[derive(Clone, Copy, Debug, PartialEq, Eq, Drop)]
pub enum Command {
    /// Fibonacci.
    Fibonacci,
    /// Fibonacci with labels.
    Named,
}

/// An audit of the command's AIR on a trace.
#[derive(Clone, Copy, Debug, PartialEq, Eq, Drop)]
pub struct TraceAudit {
    pub command: Command,
    /// A further row is checked only while there are fewer failures than this, if there is a cap.
    pub cap: Option<usize>,
    /// The weight of the domain's transition selector, 0 if the selector is linear.
    pub transition_weight: usize,
}

/// What is wanted of a JSON object.
#[derive(Clone, Copy, Debug, PartialEq, Eq, Drop)]
pub enum Wanted {
    /// The findings of an audit of its AIR on its trace.
    Audit,
    /// These findings, with an explanation of each failure.
    Explain,
    /// Its constraints, in infix notation.
    Show,
}

/// A request.
#[derive(Clone, Copy, Debug, PartialEq, Eq, Drop)]
pub enum Request {
    Trace(TraceAudit),
    Object(Wanted),
}

/// The command with this name, if there is one.
fn command_of(word: &str) -> Option<Command>
    ensures { result ≡ command_of word.now }
{
    if word == "fibonacci" {
        Some(Command::Fibonacci)
    } else if word == "named" {
        Some(Command::Named)
    } else {
        None
    }
}

/// Whether the word begins with a plus, which std's parser would accept.
fn starts_with_plus(word: &str) -> bool
    ensures { result ≡ (slice_index_or word.now 0 0 == 43) }
{
    let bytes = word.as_bytes();
    !bytes.is_empty() && bytes[0] == b'+'
}

/// The cap in a word: decimal digits whose value fits.
fn cap_of(word: &str) -> Option<usize>
    ensures { result ≡ cap_of word.now }
{
    if starts_with_plus(word) {
        return None;
    }
    match word.parse::<usize>() {
        Ok(cap) => Some(cap),
        Err(_) => None,
    }
}

/// The weight in a word: `w=`, and then digits as in a cap.
fn weight_of(word: &str) -> Option<usize>
    ensures { result ≡ weight_of word.now }
{
    match word.strip_prefix("w=") {
        Some(digits) => cap_of(digits),
        None => None,
    }
}

/// The request of a command and one word: a weight, or else a cap.
fn with_setting(command: Command, word: &str) -> Option<Request>
    ensures { result ≡ setting_of command word.now (weight_of word.now) }
{
    match weight_of(word) {
        Some(transition_weight) => Some(Request::Trace(TraceAudit {
            command,
            cap: None,
            transition_weight,
        })),
        None => Some(Request::Trace(TraceAudit {
            command,
            cap: Some(cap_of(word)?),
            transition_weight: 0,
        })),
    }
}

/// The request of a command, a cap and a weight.
fn with_settings(command: Command, cap: &str, weight: &str) -> Option<Request>
    ensures { result ≡ settings_of command cap.now weight.now }
{
    Some(Request::Trace(TraceAudit {
        command,
        cap: Some(cap_of(cap)?),
        transition_weight: weight_of(weight)?,
    }))
}

/// The request of a single word.
fn word_request(word: &str) -> Option<Request>
    ensures { result ≡ word_request word.now }
{
    if word == "flat" {
        return Some(Request::Object(Wanted::Audit));
    }
    if word == "show" {
        return Some(Request::Object(Wanted::Show));
    }
    if word == "explain" {
        return Some(Request::Object(Wanted::Explain));
    }
    let command = command_of(word)?;
    Some(Request::Trace(TraceAudit {
        command,
        cap: None,
        transition_weight: 0,
    }))
}

/// The request of these words, which don't include the program's name; `None` if there is no such request.
pub fn request_of(words: &[String]) -> Option<Request>
    ensures { result ≡ request_of (map string_bytes words.now) }
{
    match words {
        [word] => word_request(word.as_str()),
        [word, setting] => {
            let command = command_of(word.as_str())?;
            with_setting(command, setting.as_str())
        }
        [word, cap, weight] => {
            let command = command_of(word.as_str())?;
            with_settings(command, cap.as_str(), weight.as_str())
        }
        _ => None,
    }
}
